//! A bound on the change of the sine.

ghost use Rattle.std.specs.Prelude.{◌≡◌, pos, ◌≤ℤ◌, unsigned_abs};
ghost use Rattle.fixed_sine.specs.Rate.{step_of, IsSpeed, RateLaw};

use crate::circle::DEGREE;

/// The greatest rise of a degree plus a quarter of its correction.
const GREATEST_GAIN: u64 = 17_454_000;

/// Returns a bound, in billionths, on the change of the sine if its angle changes by `w` units of
/// 1/600,000,000 degree. `w` is from 0 to 3,600,000,000, which is six degrees.
pub fn step(w: i64) -> i64
    requires { IsSpeed w }
    ensures value { result ≡ pos (step_of (unsigned_abs w)) }
    ensures size { result ≤ℤ pos 104724001 }
    ensures law { RateLaw (unsigned_abs w) }
{
    (GREATEST_GAIN * w as u64 / DEGREE as u64 + 1) as i64
}
