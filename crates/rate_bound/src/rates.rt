//! Rates from the sums of years.

ghost use Rattle.std.specs.Prelude.{◌≡◌, ◌*◌, ◌^◌, ◌≤◌, pos, ◌+ℤ◌, ◌*ℤ◌, unsigned_abs};
ghost use Rattle.std.specs.Int.{int_max};
ghost use Rattle.fixed_sine.specs.Circle.{radian};
ghost use Rattle.year_blend.specs.Weights.{total_weight};
ghost use Rattle.station_curve.specs.Limits.{AreWithinLimits};
ghost use Rattle.rate_bound.specs.Rates.{
  most_rise,
  most_bend,
  plain_slope_rate,
  plain_level_rate,
  blended_slope_rate,
  blended_level_rate,
  limited,
};

use fixed_sine::RADIAN;
use station_curve::Sums;
use year_blend::TOTAL_WEIGHT;

/// The total weight.
const WEIGHT: i128 = TOTAL_WEIGHT as i128;

/// The greatest change of the weight in a minute.
const MOST_RISE: i128 = 64_800_000;

/// The greatest change in a minute of the weight's slope, which is its change per minute.
const MOST_BEND: i128 = 1_663_000;

/// The ratio of a millionth to a billionth of a millionth.
const BILLION: i128 = 1_000_000_000;

/// The greatest rate of a slope across a new year.
const MOST_RATE: i128 = 40_000_000_000_000_000_000_000_000_000_000_000;

/// Returns a bound on the change of the slope in a minute, outside the blends at new years:
/// 4,147,200,000 (the total weight of a blend) multiplied by `year.far`, which bounds the change of
/// the slope by one year's constants. `year` has the four sums over the station's waves in this
/// year. The slope is in the station's unit a minute, multiplied by
/// 10^15 * 34,377,467,708 * 4,147,200,000 (34,377,467,708 units of angle are a radian).
pub fn plain_slope_rate(year: &Sums) -> i128
    requires { AreWithinLimits year.now }
    ensures value { result ≡ plain_slope_rate year.now }
{
    WEIGHT * year.far
}

/// Returns a bound on the change of the level in a minute, outside the blends at new years:
/// 4,147,200,000 (the total weight of a blend) multiplied by `year.near`, which bounds the change
/// of the level by one year's constants. `year` has the four sums over the station's waves in this
/// year. The level is in billionths of a millionth of the station's unit, multiplied by
/// 4,147,200,000. The bound is at most 10^27.
pub fn plain_level_rate(year: &Sums) -> i128
    requires { AreWithinLimits year.now }
    ensures value { result ≡ plain_level_rate year.now }
    ensures size { unsigned_abs result ≤ 10 ^ 27 }
{
    WEIGHT * year.near
}

/// Returns a bound on the change of the slope in a minute in the blend at a new year. `earlier` and
/// `later` have the four sums over the station's waves in the years before and after it. The bound
/// is the greater of both `far` (the bound by a year's constants) times 4,147,200,000 (the total
/// weight of a blend), plus what the change of the weights adds: 64,800,000 (the greatest change of
/// a weight in a minute) times 10^9 times both `steep`, and times 34,377,467,708 (the units of
/// angle in a radian) times both `near`; and 1,663,000 (the greatest change in a minute of a
/// weight's slope) times 34,377,467,708 * 10^9 times both `amount`. The slope is in the station's
/// unit a minute, multiplied by 10^15 * 34,377,467,708 * 4,147,200,000.
#[cold]
#[inline(never)]
pub fn blended_slope_rate(earlier: &Sums, later: &Sums) -> i128
    requires earlier { AreWithinLimits earlier.now }
    requires later { AreWithinLimits later.now }
    ensures { result ≡ blended_slope_rate earlier.now later.now }
{
    WEIGHT * earlier.far.max(later.far)
        + MOST_RISE * BILLION * (earlier.steep + later.steep)
        + MOST_RISE * RADIAN as i128 * (earlier.near + later.near)
        + MOST_BEND * RADIAN as i128 * BILLION * (earlier.amount + later.amount)
}

/// Returns a bound on the change of the level in a minute in the blend at a new year. `earlier` and
/// `later` have the four sums over the station's waves in the years before and after it. The bound
/// is the greater of both `near` (the bound by a year's constants) times 4,147,200,000 (the total
/// weight of a blend), plus 64,800,000 (the greatest change of a weight in a minute) times 10^9
/// times the sum of both `amount` (the sum of a year's amplitudes). The level is in billionths of a
/// millionth of the station's unit, multiplied by 4,147,200,000. The bound is at most 10^27.
#[cold]
#[inline(never)]
pub fn blended_level_rate(earlier: &Sums, later: &Sums) -> i128
    requires earlier { AreWithinLimits earlier.now }
    requires later { AreWithinLimits later.now }
    ensures value { result ≡ blended_level_rate earlier.now later.now }
    ensures size { unsigned_abs result ≤ 10 ^ 27 }
{
    WEIGHT * earlier.near.max(later.near) + MOST_RISE * BILLION * (earlier.amount + later.amount)
}

/// Returns `Some(rate)`, or `None` if `rate` exceeds 4 * 10^34, so that 1,024 times the rate, for
/// the longest cell, stays below 5 * 10^37. `rate` is a bound on a curve's change in a minute, in
/// the unit of the curve's values.
pub fn limited(rate: i128) -> Option<i128>
    ensures { result ≡ limited rate }
{
    if rate <= MOST_RATE { Some(rate) } else { None }
}
