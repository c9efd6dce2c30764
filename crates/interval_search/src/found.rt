//! A cell, and the minute at which it begins.

use curve_law::Cell;

/// A cell that a search has found, with the minute at which it begins.
#[derive(Clone, Copy, Debug, PartialEq, Eq)]
pub struct Found {
    /// The first minute of the cell, since 1970-01-01T00:00Z.
    pub at: i64,
    /// The cell: quiet minutes, or one minute with or without an event after it.
    pub cell: Cell,
}
