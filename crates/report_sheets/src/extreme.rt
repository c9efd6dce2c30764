//! The two ends of the range of levels.

use curve_law::Kind;

/// One of the two extremes of a station's levels: the highest high water or the lowest low water.
#[derive(Clone, Copy, PartialEq, Eq)]
pub enum Extreme {
    /// The highest of the high waters.
    Highest,
    /// The lowest of the low waters.
    Lowest,
}

impl Extreme {
    ghost use Rattle.std.specs.Prelude.{◌≡◌, ◌≤◌, length, not};
    ghost use Rattle.report_sheets.specs.Ranges.{is_of, label_of, reaches};

    /// Returns true if this extreme occurs at events of this `kind`: the highest level at high waters,
    /// the lowest at low waters.
    pub fn is_of(self, kind: Kind) -> bool
        ensures { result ≡ is_of self kind }
    {
        match (self, kind) {
            (Extreme::Highest, Kind::High) | (Extreme::Lowest, Kind::Low) => true,
            _ => false,
        }
    }

    /// Returns true if the level `other` is more extreme than `level`: above it for
    /// [`Extreme::Highest`], below it for [`Extreme::Lowest`].
    pub fn is_passed(self, level: i64, other: i64) -> bool
        ensures { result ≡ not (reaches self level other) }
    {
        match self {
            Extreme::Highest => level < other,
            Extreme::Lowest => other < level,
        }
    }

    /// Returns `Highest ` or `Lowest `, the beginning of the line of this extreme, with a space at its
    /// end. It has at most 8 bytes.
    pub fn label(self) -> &'static str
        ensures text { result.now ≡ label_of self }
        ensures length_bound { length result.now ≤ 8 }
    {
        match self {
            Extreme::Highest => "Highest ",
            Extreme::Lowest => "Lowest ",
        }
    }
}
