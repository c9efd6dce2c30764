//! A level at a minute.

/// A row of a listing of water levels or current speeds: a minute, and a station's level at this
/// minute.
#[derive(Clone, Copy, PartialEq, Eq)]
pub struct Row {
    /// The minute, counted from 1970-01-01T00:00Z.
    pub minute: i64,
    /// The level at the minute, in millionths of the station's unit.
    pub level: i64,
}
