//! The stretch of a cell of a station.

ghost use Rattle.std.specs.Prelude.{◌≡◌, ◌≤◌, pos, ◌+ℤ◌};
ghost use Rattle.year_blend.specs.declared.spanning.TheConstants.{LONGEST_SPAN};
ghost use Rattle.year_blend.specs.Stretches.{stretch_of};
ghost use Rattle.station_curve.specs.Curves.{IsPredicted};
ghost use Rattle.rate_bound.specs.Workings.Cells.{AreNeeded};

use station_curve::StationCurve;
use year_blend::Stretch;

/// Returns which years' constants determine the level of `station` at the minutes from `a` to
/// `a + n`, both included: one year's if none of these minutes is less than an hour from a new year
/// between two of the book's years, and otherwise both years' around that new year. `n` is at most
/// `LONGEST_SPAN` (1,024).
#[inline(always)]
pub fn stretch_of(station: &StationCurve, a: i64, n: u32) -> Stretch
    requires first { IsPredicted station.now a }
    requires last { IsPredicted station.now (a +ℤ pos n) }
    requires length_bound { n ≤ LONGEST_SPAN }
    ensures value { result ≡ stretch_of station.now.book.first_year station.now.book.years a n }
    ensures years { AreNeeded station.now result }
{
    station.limits_hold();
    station.stretch(a, n)
}
