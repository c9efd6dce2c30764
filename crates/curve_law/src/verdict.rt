//! The result of checking a track's cells.

/// The result of checking the cells of one track over a span of time: accepted, or the first fault.
/// `cell` is the number of the wrong cell, counted from 1.
#[derive(Clone, Copy, Debug, PartialEq, Eq)]
pub enum Verdict {
    /// The cells cover the span, and the claim of each cell is true.
    Accepted,
    /// The cells have `covered` minutes together, and the span has `wanted`, a different number. If
    /// the cells have more minutes than an `i64` can count, `covered` is the greatest `i64`.
    WrongLength {
        covered: i64,
        wanted: i64,
    },
    /// A cell that is claimed to be quiet isn't: it has fewer than 2 or more than 1,024 minutes, or
    /// the curve has no bound on its change there, or by this bound an event can be after a minute
    /// of it.
    NotQuiet {
        cell: u32,
    },
    /// A cell of one minute is wrong: it claims that there is no event after its minute, and there
    /// is one, or it claims an event, and there is none or one of another kind.
    WrongStep {
        cell: u32,
    },
    /// An event has another level than the cell claims: the cell says `written`, and the track has
    /// `computed` at this minute. Both are in millionths of the station's unit.
    WrongLevel {
        cell: u32,
        written: i64,
        computed: i64,
    },
}
