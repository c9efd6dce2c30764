//! The year of a minute by the calendar, for the minutes near the end of a year.

ghost use Rattle.year_blend.specs.Places.{AreYears, InDomain};
ghost use Rattle.station_curve.specs.Workings.NumberRanges.{IsPlainYear};

use year_blend::{Place, place};

/// Returns the index (0 for `first_year`) of the year that contains minute `m`, or `None` if `m` is
/// less than an hour from a new year between two of the years. There are `years` calendar years from
/// `first_year` on; `first_year` is from 2 to 8800 and `years` from 1 to 500. `m` is counted from
/// 1970-01-01T00:00Z, and is in these years or the first minute after them, which belongs to the last
/// year.
#[cold]
#[inline(never)]
pub fn calendar_year_of(first_year: i32, years: u32, m: i64) -> Option<u32>
    requires years { AreYears first_year years }
    requires domain { InDomain first_year years m }
    ensures { IsPlainYear first_year years m result }
{
    match place(first_year, years, m) {
        Place::Plain { year } => Some(year),
        Place::Blend { .. } => None,
    }
}
