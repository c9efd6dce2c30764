//! Sine and cosine of a fraction of a turn.
//!
//! A fraction of a turn is counted in 2^-64 of a turn. So sums and products drop full circles by
//! themselves, and the degree and the units in it are the leading digits of products.

ghost use Rattle.std.specs.Prelude.{◌≡◌, ◌+◌, ◌*◌, ◌/◌, ◌%◌, ◌^◌, ◌≤◌, ◌<◌, pos, ◌+ℤ◌, ◌-ℤ◌, ◌*ℤ◌, unsigned_abs};
ghost use Rattle.std.specs.Int.{int_shr};
ghost use Rattle.fixed_sine.specs.Circle.{circle, degree};
ghost use Rattle.fixed_sine.specs.Sine.{isin_of};
ghost use Rattle.fixed_sine.specs.BinaryAngle.{binary_angle_of, units_of};

use crate::circle::CIRCLE;
use crate::degrees::degree_at;
use crate::sine::{UNITS, isin};

/// A full circle as an angle in 2^-64 of a turn: 2^64.
pub const FULL_CIRCLE: u128 = 1 << 64;

/// A quarter of a circle as an angle in 2^-64 of a turn: 2^62.
pub const QUARTER_CIRCLE: u64 = 1 << 62;

/// A unit of the circle is 2^52 / `SHARE` in 2^-64 of a turn.
const SHARE: u64 = CIRCLE as u64 / 4096;

/// The bound, in 2^-64 of a billionth, on how much a computed gain is too great.
const UNSURE: u64 = 1 << 51;

/// A factor 2^52 is applied in two steps of 2^26, so that products fit 64 bits.
const STEP: u64 = 1 << 26;

/// Returns the angle of `units` units of 1/600,000,000 degree as an angle in 2^-64 of a turn: the first
/// such angle above it, which [`binary_angle_sine`] rounds down to `units` units again. `units` is from
/// 0 up to but not including `CIRCLE`.
pub fn binary_angle_of(units: u64) -> u64
    requires { units < circle }
    ensures { result ≡ binary_angle_of units }
{
    let scaled = units * STEP;
    let rest = scaled % SHARE;
    scaled / SHARE * STEP + rest * STEP / SHARE + 1
}

/// Returns the sine, in billionths from -1,000,000,000 to 1,000,000,000, of `binary_angle`, an angle in
/// 2^-64 of a turn. The angle is first rounded down to whole units of 1/600,000,000 degree.
#[inline]
pub fn binary_angle_sine(binary_angle: u64) -> i64
    ensures value { result ≡ isin_of (units_of binary_angle) }
    ensures size { unsigned_abs result ≤ 1000000000 }
{
    let spot = spot_of(binary_angle);
    let degree = degree_at(spot.degrees);
    let gain = gain_over(spot.r, mean_slope(degree.slope, degree.bend, spot.r));
    if gain.rest < UNSURE {
        written_sine(spot)
    } else {
        i64::from(degree.sine) + gain.whole
    }
}

/// An angle as whole degrees, and the units after them.
#[derive(Clone, Copy)]
struct Spot {
    degrees: usize,
    r: u64,
}

/// Returns `binary_angle`, which is in 2^-64 of a turn, as whole degrees and whole units of
/// 1/600,000,000 degree after them.
fn spot_of(binary_angle: u64) -> Spot
    ensures degrees { result.degrees < 360 }
    ensures part { result.r < degree }
    ensures value { degree * result.degrees + result.r ≡ units_of binary_angle }
{
    let degrees = u128::from(binary_angle) * 360;
    Spot {
        degrees: (degrees / FULL_CIRCLE) as usize,
        r: (degrees % FULL_CIRCLE * u128::from(UNITS) / FULL_CIRCLE) as u64,
    }
}

/// Returns the sine of `spot`, in billionths, by its definition.
#[cold]
#[inline(never)]
fn written_sine(spot: Spot) -> i64
    requires degrees { spot.degrees < 360 }
    requires part { spot.r < degree }
    ensures value { result ≡ isin_of (degree * spot.degrees + spot.r) }
    ensures size { unsigned_abs result ≤ 1000000000 }
{
    isin(place_of(spot))
}

/// Returns the angle of `spot` in units of 1/600,000,000 degree.
fn place_of(spot: Spot) -> i64
    requires degrees { spot.degrees < 360 }
    requires part { spot.r < degree }
    ensures { result ≡ pos (degree * spot.degrees + spot.r) }
{
    (spot.degrees as u64 * UNITS + spot.r) as i64
}

/// Returns the mean change of the sine over the first `r` units of 1/600,000,000 degree after a whole
/// degree. The result is the change for each such unit, in 2^-64 of a billionth.
fn mean_slope(slope: i64, bend: i32, r: u64) -> i64
    requires slope { unsigned_abs slope ≤ 540000000000000000 }
    requires bend { unsigned_abs bend ≤ 2000000000 }
    requires part { r < degree }
    ensures value { result ≡ slope -ℤ int_shr (pos r *ℤ bend) 8 }
    ensures size { unsigned_abs result ≤ 550000000000000000 }
{
    slope - lost(bend, r)
}

/// Returns the decrease of a slope, in 2^-64 of a billionth, after `r` units of 1/600,000,000 degree;
/// `bend` is its decrease for each unit, in 2^-72 of a billionth.
fn lost(bend: i32, r: u64) -> i64
    requires bend { unsigned_abs bend ≤ 2000000000 }
    requires part { r < degree }
    ensures value { result ≡ int_shr (pos r *ℤ bend) 8 }
    ensures size { unsigned_abs result ≤ 4700000000000000 }
{
    (r as i64 * i64::from(bend)) >> 8
}

/// A change of the sine: whole billionths, and 2^-64 of a billionth.
#[derive(Clone, Copy)]
struct Gain {
    whole: i64,
    rest: u64,
}

/// Returns the change of the sine, in billionths, over `r` units of 1/600,000,000 degree, for a `slope`
/// in 2^-64 of a billionth for each unit.
fn gain_over(r: u64, slope: i64) -> Gain
    requires part { r < degree }
    requires slope { unsigned_abs slope ≤ 550000000000000000 }
    ensures value { (result.whole *ℤ pos (2 ^ 64)) +ℤ pos result.rest ≡ pos r *ℤ slope }
    ensures size { unsigned_abs result.whole ≤ 18000000 }
{
    let product = product(r, slope);
    let whole = whole_of(product);
    Gain {
        whole,
        rest: rest_of(product, whole),
    }
}

/// Returns `r * slope`, which can't overflow: `r` is below 600,000,000, and `slope` at most
/// 550,000,000,000,000,000 in size.
fn product(r: u64, slope: i64) -> i128
    requires part { r < degree }
    requires slope { unsigned_abs slope ≤ 550000000000000000 }
    ensures value { result ≡ pos r *ℤ slope }
    ensures size { unsigned_abs result ≤ 330000000000000000000000000 }
{
    i128::from(r) * i128::from(slope)
}

/// Returns `product / 2^64`, rounded down.
fn whole_of(product: i128) -> i64
    requires { unsigned_abs product ≤ 330000000000000000000000000 }
    ensures value { result ≡ int_shr product 64 }
    ensures size { unsigned_abs result ≤ 18000000 }
{
    (product >> 64) as i64
}

/// Returns `product - whole * 2^64`.
fn rest_of(product: i128, whole: i64) -> u64
    requires size { unsigned_abs product ≤ 330000000000000000000000000 }
    requires whole { whole ≡ int_shr product 64 }
    ensures { (whole *ℤ pos (2 ^ 64)) +ℤ pos result ≡ product }
{
    (product - scaled(whole)) as u64
}

/// Returns `whole * 2^64`.
fn scaled(whole: i64) -> i128
    requires { unsigned_abs whole ≤ 18000000 }
    ensures { result ≡ whole *ℤ pos (2 ^ 64) }
{
    i128::from(whole) * FULL_CIRCLE as i128
}
