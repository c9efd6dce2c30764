//! Local times.

/// How a local time is labelled: as universal time, or with the clock's offset from it.
#[derive(Clone, Copy, PartialEq, Eq)]
pub enum Label {
    /// The clock shows universal time.
    Utc,
    /// An offset: the minutes by which the clock is ahead of universal time, negative if it is
    /// behind. Offsets from -1560 to 1560 (26 hours) can be written as text.
    Minutes(i32),
}

/// The time that the clock of some zone shows at a moment, with its label.
#[derive(Clone, Copy, PartialEq, Eq)]
pub struct Local {
    /// The minute that the clock shows, counted from 1970-01-01 00:00 on that clock.
    pub minute: i64,
    /// Universal time, or how far the clock is ahead of it.
    pub label: Label,
}
