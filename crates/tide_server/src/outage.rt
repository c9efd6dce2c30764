//! The failures that end a server.

/// A failure that ends a server.
#[derive(Clone, Copy)]
pub(crate) enum Outage {
    /// The server couldn't listen at its port, or couldn't accept a connection.
    Door,
    /// The clock couldn't be read.
    Clock,
}
