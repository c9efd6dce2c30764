//! The slope error bound of a station.

ghost use Rattle.std.specs.Prelude.{◌≡◌, ℕ, ◌*◌, ◌^◌, ◌≤◌, ℤ, pos, ◌≤ℤ◌, unsigned_abs};
ghost use Rattle.station_curve.specs.Limits.{AreWithinLimits};
ghost use Rattle.station_curve.specs.Curves.{IsPredicted};
ghost use Rattle.slope_agreement.specs.Agreements.{predicted_gap, IsPlainMinute, year_agreement, agreement_of};

use crate::unit_gaps::{EACH_UNIT, TWO_CUTS};
use station_curve::{StationCurve, Sums};
use year_blend::TOTAL_WEIGHT;

/// The total weight.
const WEIGHT: i128 = TOTAL_WEIGHT as i128;

/// Returns a bound on the difference between the rise of the level of `station` in a minute and its
/// slope at the beginning of that minute. The unit is the slope's: billionths of a millionth of the
/// station's unit a minute, times 34,377,467,708 (the units of angle in a radian) and 4,147,200,000 (the
/// total weight of a blend). The bound holds at each minute that is, like the next one, outside the
/// blends at new years; it is the greatest bound of any year.
pub fn agreement(station: &StationCurve) -> i128
    ensures value { result ≡ agreement_of station.now }
    ensures law { (m : ℤ) (year : ℕ) → IsPredicted station.now m
        → IsPlainMinute station.now.book.first_year station.now.book.years m year
        → pos (predicted_gap station.now.book station.now.station m) ≤ℤ result }
    ensures least { pos 0 ≤ℤ result }
    ensures most { result ≤ℤ pos (5 * 10 ^ 34) }
{
    station.limits_hold();
    let mut most: i128 = 0;
    for year in 0..station.years() {
        most = most.max(year_agreement(&station.sums(year)));
    }
    most
}

/// Returns the slope error bound of a year by its sums, in billionths of a millionth of the station's
/// unit a minute, times 34,377,467,708 (the units of angle in a radian) and 4,147,200,000 (the total
/// weight of a blend).
fn year_agreement(year: &Sums) -> i128
    requires { AreWithinLimits year.now }
    ensures value { result ≡ year_agreement year.now }
    ensures size { unsigned_abs result ≤ 5 * 10 ^ 34 }
{
    WEIGHT * (year.far + EACH_UNIT as i128 * year.steep + TWO_CUTS as i128 * year.amount)
}
