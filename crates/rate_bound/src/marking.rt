//! A level less a mark.

ghost use Rattle.std.specs.Prelude.{◌≡◌, ◌*◌, ◌^◌, ◌≤◌, pos, ◌+ℤ◌, ◌-ℤ◌, ◌*ℤ◌, ◌≤ℤ◌, unsigned_abs};
ghost use Rattle.year_blend.specs.Weights.{total_weight};
ghost use Rattle.rate_bound.specs.CurveSpecs.{over_mark};

use year_blend::TOTAL_WEIGHT;

/// A millionth in the unit of a curve of millionths times the level: the total weight times 10^15.
const MILLIONTH: i128 = TOTAL_WEIGHT as i128 * 1_000_000_000_000_000;

/// Returns `level` multiplied by `times` millionths, plus `plus`, less `mark`. `plus` and `mark`
/// are in millionths of the station's unit, at most 10^10 in absolute value, and `times` is at most
/// 10^8. `level`, at most 12,000 units, is in the station's unit, multiplied by
/// 10^15 * 4,147,200,000 (the total weight of a blend); the result is in this unit, multiplied by
/// 10^21 * 4,147,200,000.
pub fn over_mark(times: i64, plus: i64, mark: i64, level: i128) -> i128
    requires times { unsigned_abs times ≤ 10 ^ 8 }
    requires plus { unsigned_abs plus ≤ 10 ^ 10 }
    requires mark { unsigned_abs mark ≤ 10 ^ 10 }
    requires level { unsigned_abs level ≤ total_weight * (12 * 10 ^ 18) }
    ensures { result ≡ over_mark times plus mark level }
{
    scaled(times, level) + raised(plus - mark)
}

/// Returns `times * level`, which can't overflow. `level` is a level, or a bound on a level's
/// change in a minute, at most 10^29 in absolute value; `times` is at most 10^8 in absolute value.
pub fn scaled(times: i64, level: i128) -> i128
    requires times { unsigned_abs times ≤ 10 ^ 8 }
    requires level { unsigned_abs level ≤ 10 ^ 29 }
    ensures value { result ≡ times *ℤ level }
    ensures size { unsigned_abs result ≤ 10 ^ 37 }
{
    i128::from(times) * level
}

/// Converts `millionths`, in millionths of the station's unit, to the unit of the curve of a level less
/// a mark: 10^-21 of the station's unit, multiplied by 4,147,200,000 (the total weight of a blend).
fn raised(millionths: i64) -> i128
    requires { unsigned_abs millionths ≤ 2 * 10 ^ 10 }
    ensures value { result ≡ pos (10 ^ 6 * total_weight * 10 ^ 9) *ℤ millionths }
    ensures size { unsigned_abs result ≤ 10 ^ 35 }
{
    MILLIONTH * i128::from(millionths)
}
