//! The answer of a sheet to an event.

/// The answer of a report's sheet to one more event: whether it has appended the event.
#[derive(Clone, Copy, PartialEq, Eq)]
pub enum Taken {
    /// The event was appended to the sheet's list.
    Kept,
    /// The sheet's list has as many events as its limit, and is unchanged.
    Full,
}
