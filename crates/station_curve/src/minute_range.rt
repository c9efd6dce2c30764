//! The minutes that a curve must have.

ghost use Rattle.std.specs.Prelude.{◌≡◌, ◌^◌, ◌≤◌, ◌&&◌, pos, ◌+ℤ◌, int_le, unsigned_abs};
ghost use Rattle.year_blend.specs.Years.{year_start_of};

use crate::constants::calendar_year;
use crate::years::HOUR;
use harmonics_book::ValidBook;
use year_blend::year_start;

/// A range of minutes for which a curve is made: from `first` to `last`, both included, since
/// 1970-01-01T00:00Z.
#[derive(Clone, Copy, Debug)]
pub struct MinuteRange {
    pub first: i64,
    pub last: i64,
}

impl MinuteRange {
    /// Returns true if a minute of this range is at most an hour from the year that begins at
    /// minute `start` and ends before minute `end`: in the year, at most 60 minutes before `start`,
    /// or at most 60 minutes after `end`. Minutes are counted from 1970-01-01T00:00Z; `end` and the
    /// range's last minute are at most 10^12 in absolute value.
    pub fn touches(self, start: i64, end: i64) -> bool
        requires last { unsigned_abs self.last ≤ 10 ^ 12 }
        requires end { unsigned_abs end ≤ 10 ^ 12 }
        ensures { result ≡ (int_le start (self.last +ℤ pos 60) && int_le self.first (end +ℤ pos 60)) }
    {
        is_within_hour(start, self.last) && is_within_hour(self.first, end)
    }
}

/// Returns true if `minute` is before `other` or at most 60 minutes after it.
fn is_within_hour(minute: i64, other: i64) -> bool
    requires { unsigned_abs other ≤ 10 ^ 12 }
    ensures { result ≡ int_le minute (other +ℤ pos 60) }
{
    minute <= other + HOUR
}

/// Returns the range from the first minute of the book's years to the first minute after them, both
/// included, counted from 1970-01-01T00:00Z. The first and the last minute (`in_range` and
/// `near_last`) are at most 10^12 in absolute value.
pub fn all_minutes(book: &ValidBook<'_>) -> MinuteRange
    ensures first { result.first ≡ year_start_of book.now.first_year }
    ensures last { result.last ≡ year_start_of (book.now.first_year +ℤ pos book.now.years) }
    ensures in_range { unsigned_abs result.first ≤ 10 ^ 12 }
    ensures near_last { unsigned_abs result.last ≤ 10 ^ 12 }
{
    MinuteRange {
        first: year_start(calendar_year(book, 0)),
        last: year_start(calendar_year(book, book.get().years)),
    }
}
