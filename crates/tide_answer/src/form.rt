//! The forms of an answer that is streamed.

/// Whether an answer that is written while it is computed is a listing or a certificate.
#[derive(Clone, Copy)]
pub enum Form {
    /// A listing of events: the station's name, and one line for each event.
    Listing,
    /// A certificate of the station's events.
    Certificate,
}
