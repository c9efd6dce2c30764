//! Cells of several minutes that are under a highest water.

ghost use Rattle.std.specs.Prelude.{◌≡◌, ◌*◌, ◌^◌, ◌<◌, ◌≤◌, pos, ◌+ℤ◌, ◌*ℤ◌, ◌≤ℤ◌, ◌<ℤ◌, unsigned_abs, int_lt, int_le, if◌then◌else◌};
ghost use Rattle.curve_law.specs.declared.quiet.TheConstants.{MOST_MINUTES};
ghost use Rattle.curve_law.specs.CurveSpec.{IsSpan};
ghost use Rattle.highest_water.specs.Covers.{twice_most, is_under};
ghost use Rattle.highest_water.specs.Verdicts.{is_inside};

use curve_law::{Curve, MOST_MINUTES, Point, most_change};

/// Returns true if the `n` minutes from the point `begin` on are under `highest`: `n` is from 2 to
/// 1,024, and by the curve's rate (a bound on its change in a minute) their values can't reach the
/// value of `highest` if they are all before its minute, or can't exceed it if they are all after.
/// Returns false if the minute of `highest` is one of them or the curve has no rate for them.
/// `end_value` is the curve's value at the minute `n` minutes after `begin`.
pub fn is_under<C: Curve>(curve: &C, highest: Point, begin: Point, n: u32, end_value: i128) -> bool
    requires size { unsigned_abs highest.value < 10 ^ 37 }
    requires span { IsSpan (C.state curve.now).curve_model.curve_spec begin.minute n }
    requires value { begin.value ≡ (C.state curve.now).curve_model.curve_spec.track.value begin.minute }
    requires end_value { end_value ≡ (C.state curve.now).curve_model.curve_spec.track.value (begin.minute +ℤ pos n) }
    ensures { result ≡ is_under (C.state curve.now).curve_model.curve_spec highest.minute highest.value begin.minute n }
{
    if n < 2 || n > MOST_MINUTES {
        return false;
    }
    if holds(begin.minute, n, highest.minute) {
        return false;
    }
    let is_after = highest.minute < begin.minute;
    match curve.rate(begin.minute, n) {
        Some(rate) => is_low(
            twice_most(rate, n, begin.value, end_value),
            highest.value,
            is_after,
        ),
        None => false,
    }
}

/// Returns true if `minute` is one of the `n` minutes from `begin` on: not before `begin`, and
/// before `begin + n`.
fn holds(begin: i64, n: u32, minute: i64) -> bool
    requires in_range { unsigned_abs begin ≤ 2 ^ 60 }
    ensures { result ≡ is_inside minute begin n }
{
    begin <= minute && minute < begin + i64::from(n)
}

/// Returns `value + end_value + rate * n`. If a value changes by at most `rate` in each minute,
/// none between the values `value` and `end_value`, `n` minutes apart, exceeds half of this.
fn twice_most(rate: i128, n: u32, value: i128, end_value: i128) -> i128
    requires positive { pos 0 ≤ℤ rate }
    requires rate { (rate *ℤ pos MOST_MINUTES) <ℤ pos (5 * 10 ^ 37) }
    requires count_bound { n ≤ MOST_MINUTES }
    requires value { unsigned_abs value < 10 ^ 37 }
    requires end_value { unsigned_abs end_value < 10 ^ 37 }
    ensures value { result ≡ twice_most rate n value end_value }
    ensures size { unsigned_abs result < 7 * 10 ^ 37 }
{
    value + end_value + most_change(rate, n)
}

/// Returns true if `twice_most`, a bound on twice the values in a cell, is low enough: at most
/// twice `value` if the cell is after the highest water, and less than twice `value` if it is
/// before.
fn is_low(twice_most: i128, value: i128, is_after: bool) -> bool
    requires size { unsigned_abs value < 10 ^ 37 }
    ensures { result ≡ (if is_after then int_le twice_most (pos 2 *ℤ value) else int_lt twice_most (pos 2 *ℤ value)) }
{
    let twice = 2 * value;
    if is_after {
        twice_most <= twice
    } else {
        twice_most < twice
    }
}
