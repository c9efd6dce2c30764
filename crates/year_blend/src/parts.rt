//! Where minutes are in consecutive calendar years: in one year, or in the blend at a new year.

/// The position of a minute in consecutive calendar years: in one year, or in the blend at a new year
/// (less than an hour from it). `year` is the index of a year, 0 for the first.
#[derive(Clone, Copy, PartialEq, Eq)]
pub enum Place {
    /// The minute is in the year with index `year`, in no blend at a new year. The first minute after
    /// the years is in the last year.
    Plain { year: u32 },
    /// The minute is in the blend at the start of the year with index `year`, which isn't the first
    /// year: `x` minutes after that start (before it, if `x` is negative), with `-60 < x < 60`.
    Blend { year: u32, x: i64 },
}

/// The year or years whose constants apply to some consecutive minutes: one year, or the two years
/// around a new year. `year` is the index of a year, 0 for the first.
#[derive(Clone, Copy, PartialEq, Eq)]
pub enum Stretch {
    /// All minutes are in the year with index `year`, and none is less than an hour from a new year
    /// between two of the years.
    Within { year: u32 },
    /// Some minutes are in the blend at the start of the year with index `year`, less than an hour from
    /// that start. The others are in this year or in the year before.
    Across { year: u32 },
}
