//! The difference between the change of the cosine and its slope.

ghost use Rattle.std.specs.Prelude.{◌≡◌, pos, unsigned_abs};
ghost use Rattle.fixed_sine.specs.Rate.{IsSpeed};
ghost use Rattle.slope_agreement.specs.UnitGaps.{unit_gap_of, SlopeLaw};

use fixed_sine::{RADIAN, step};

/// A bound on the difference between the change of the cosine over one unit of angle (1/600,000,000
/// degree) and its slope there: the difference in billionths, multiplied by 34,377,467,708 (the units
/// of angle in a radian).
pub const EACH_UNIT: u64 = 100_000;

/// A bound on the error of rounding twice to whole billionths: the error in billionths, at most 2,
/// multiplied by 34,377,467,708 (the units of angle in a radian).
pub const TWO_CUTS: u64 = 2 * RADIAN as u64;

/// Returns a bound on the difference between the change of the cosine in a minute and its slope, for a
/// wave of `w` units of 1/600,000,000 degree a minute; `w` is from 0 to 3,600,000,000. The result bounds
/// the difference in billionths, multiplied by 34,377,467,708 (the units of angle in a radian).
///
/// The program doesn't call it: it bounds all waves of a year by their sums.
pub fn unit_gap(w: i64) -> i128
    requires { IsSpeed w }
    ensures value { result ≡ pos (unit_gap_of (unsigned_abs w)) }
    ensures law { SlopeLaw (unsigned_abs w) }
{
    let step = step(w) as u64;
    let w = w as u64;
    i128::from(w * step + EACH_UNIT * w + TWO_CUTS)
}
