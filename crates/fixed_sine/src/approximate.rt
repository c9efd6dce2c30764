//! The approximate sine.

ghost use Rattle.std.specs.Prelude.{◌≡◌, ◌^◌, ◌≤◌, pos, ◌-ℤ◌, ◌*ℤ◌, unsigned_abs};
ghost use Rattle.fixed_sine.specs.Sine.{isin_of};
ghost use Rattle.fixed_sine.specs.BinaryAngle.{units_of};
ghost use Rattle.fixed_sine.specs.Approximate.{approximate_error, approximate_sine_of};

use crate::part_sines::part_sine;

/// A bound on the difference between [`approximate_sine`], multiplied by 2^15, and
/// [`crate::binary_angle_sine`], in billionths.
pub const APPROXIMATE_ERROR: i64 = 400_000;

/// A part of the circle, 1/8,192, in 2^-64 of a turn.
const PART: u64 = 1 << 51;

/// Returns the approximate sine of `binary_angle`, an angle in 2^-64 of a turn. The result is in units
/// of 2^15 (32,768) billionths; multiplied by 32,768, it differs from [`crate::binary_angle_sine`] by
/// at most [`APPROXIMATE_ERROR`] (400,000) billionths.
#[inline]
pub fn approximate_sine(binary_angle: u64) -> i64
    ensures value { result ≡ approximate_sine_of binary_angle }
    ensures approximate { unsigned_abs ((pos (2 ^ 15) *ℤ result) -ℤ isin_of (units_of binary_angle)) ≤ approximate_error }
    ensures size { unsigned_abs result ≤ 30518 }
{
    i64::from(part_sine((binary_angle / PART) as usize))
}
