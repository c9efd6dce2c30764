//! Blends: the level and slope near a new year, from the values of the earlier and the later year.

ghost use Rattle.std.specs.Prelude.{◌≡◌, ◌*◌, ◌^◌, ◌≤◌, pos, ◌+ℤ◌, ◌-ℤ◌, ◌*ℤ◌, ◌≤ℤ◌, unsigned_abs};
ghost use Rattle.fixed_sine.specs.Circle.{radian};
ghost use Rattle.fixed_sine.specs.Approximate.{approximate_error};
ghost use Rattle.year_blend.specs.Weights.{total_weight, weight_slope_of, IsWithinHourOfNewYear};
ghost use Rattle.station_curve.specs.Errors.{speed_error};

use fixed_sine::{APPROXIMATE_ERROR, RADIAN};
use year_blend::{TOTAL_WEIGHT, weight_slope};

/// The error of a slope for each millionth of an amplitude, if its speed is rounded down to a multiple
/// of 2^9 units.
const SPEED_ERROR: i128 = 512_000_000_000;

/// Returns `weight * value`, what one year adds to the level or slope in a blend, the mixture of
/// two years' values less than an hour from a new year. `weight` is the year's weight, from 0 to
/// 4,147,200,000 (the total weight of both years). `value` is the level or slope by the year's
/// constants, in any unit, at most 10^26 in absolute value, so the product can't overflow.
pub fn weighted(weight: i64, value: i128) -> i128
    requires value { unsigned_abs value ≤ 10 ^ 26 }
    requires least { pos 0 ≤ℤ weight }
    requires most { weight ≤ℤ pos total_weight }
    ensures value { result ≡ weight *ℤ value }
    ensures size { unsigned_abs result ≤ total_weight * 10 ^ 26 }
{
    i128::from(weight) * value
}

/// Returns the weighted mean of two years' levels or slopes in a blend (less than an hour from a
/// new year), multiplied by 4,147,200,000, the sum of both weights: `later * weight +
/// earlier * (4,147,200,000 - weight)`. `earlier` and `later` are the values by each year's
/// constants, in the same unit, at most 10^26 in absolute value. `weight` is the later year's
/// weight, from 0 to 4,147,200,000.
pub fn mixed(earlier: i128, later: i128, weight: i64) -> i128
    requires earlier { unsigned_abs earlier ≤ 10 ^ 26 }
    requires later { unsigned_abs later ≤ 10 ^ 26 }
    requires least { pos 0 ≤ℤ weight }
    requires most { weight ≤ℤ pos total_weight }
    ensures value { result ≡ ((pos total_weight -ℤ weight) *ℤ earlier) +ℤ (weight *ℤ later) }
    ensures size { unsigned_abs result ≤ 2 * (total_weight * 10 ^ 26) }
{
    weighted(TOTAL_WEIGHT - weight, earlier) + weighted(weight, later)
}

/// Returns what the change of the weights adds to the slope in a blend, where the level is the
/// weighted mean of two years' levels, `x` minutes after a new year; `x` is from -60 to 60,
/// negative before it. `change` is the later year's level minus the earlier year's, in billionths
/// of a millionth of the station's unit, at most 2 * 10^18 in absolute value. The result is in the
/// station's unit a minute, multiplied by 10^15 * 34,377,467,708 * 4,147,200,000 (34,377,467,708
/// units of angle are a radian, and 4,147,200,000 is the total weight of a blend).
pub fn drift(change: i64, x: i64) -> i128
    requires change { unsigned_abs change ≤ 2 * 10 ^ 18 }
    requires in_range { IsWithinHourOfNewYear x }
    ensures value { result ≡ (weight_slope_of x *ℤ pos radian) *ℤ change }
    ensures size { unsigned_abs result ≤ (64800000 * radian) * (2 * 10 ^ 18) }
{
    i128::from(weight_rise(x)) * i128::from(change)
}

/// Returns the change per minute of the later year's weight in a blend, `x` minutes after the new
/// year (from -60 to 60), multiplied by 34,377,467,708 (the units of angle in a radian).
fn weight_rise(x: i64) -> i64
    requires { IsWithinHourOfNewYear x }
    ensures value { result ≡ weight_slope_of x *ℤ pos radian }
    ensures size { unsigned_abs result ≤ 64800000 * radian }
{
    weight_slope(x) * RADIAN
}

/// Returns `value` multiplied by 4,147,200,000, the total weight of a blend: outside the blends at
/// new years one year has the full weight, and all levels and slopes have the same unit. `value` is
/// a level or slope by the constants of this year, at most 2 * 10^26 in absolute value.
pub fn by_full_weight(value: i128) -> i128
    requires { unsigned_abs value ≤ 2 * 10 ^ 26 }
    ensures { result ≡ pos total_weight *ℤ value }
{
    i128::from(TOTAL_WEIGHT) * value
}

/// Returns a bound on the error of a sum of sines, each multiplied by a factor, if approximate
/// sines, which are off by at most 400,000 billionths, take the sines' place. `size` is the sum of
/// the absolute values of the factors, at most 10^17: amplitudes for a level, amplitudes times
/// speeds for a slope. The bound is in billionths of the unit of `size`, multiplied by
/// 4,147,200,000 (the total weight of a blend).
pub fn error_of(size: i128) -> i128
    requires { unsigned_abs size ≤ 10 ^ 17 }
    ensures { result ≡ pos (total_weight * approximate_error) *ℤ size }
{
    i128::from(TOTAL_WEIGHT) * i128::from(APPROXIMATE_ERROR) * size
}

/// Returns a bound on the error of an approximate slope because of its rounded speeds: each wave's
/// speed is rounded down to a multiple of 2^9 units of 1/600,000,000 degree a minute. `amount` is
/// the sum of the absolute values of the waves' amplitudes, in millionths of the station's unit, at
/// most 10^9. The result is in the station's unit a minute, multiplied by
/// 10^15 * 34,377,467,708 * 4,147,200,000 (34,377,467,708 units of angle are a radian, and
/// 4,147,200,000 is the total weight of a blend).
pub fn speed_error_of(amount: i128) -> i128
    requires { unsigned_abs amount ≤ 10 ^ 9 }
    ensures { result ≡ pos (total_weight * speed_error) *ℤ amount }
{
    i128::from(TOTAL_WEIGHT) * SPEED_ERROR * amount
}
