//! Quiet cells and cells of one minute, decided from the exact values at both ends.

ghost use Rattle.std.specs.Prelude.{◌≡◌, ◌*◌, ◌^◌, ◌<◌, ◌≤◌, pos, ◌+ℤ◌, ◌*ℤ◌, ◌≤ℤ◌, ◌<ℤ◌, unsigned_abs, Some};
ghost use Rattle.curve_law.specs.CurveSpec.{IsMinute, IsSpan};
ghost use Rattle.curve_law.specs.Track.{side_at};
ghost use Rattle.curve_law.specs.Cover.{keeps_side, is_quiet, unit_cell};

use crate::cell::Cell;
use crate::curve::Curve;
use crate::passing::kind_after;

/// The greatest number of minutes of a quiet cell (consecutive minutes with no event after any of
/// them), and the length of the blocks that a span of time is cut into before they are halved.
pub const MOST_MINUTES: u32 = 1024;

/// Returns true if the `n` minutes from minute `a` on can be one quiet cell: `n` is from 2 to
/// 1,024, the curve has a rate (a bound on its change in a minute) for them, and the values at `a`
/// and at `a + n` are on one side of 0, with a sum that shows that no value between them crosses 0
/// at this rate. `value` and `end_value` are the curve's values at `a` and at `a + n`. The rate is
/// evaluated only if both are on one side of 0.
pub fn is_quiet<C: Curve>(curve: &C, a: i64, n: u32, value: i128, end_value: i128) -> bool
    requires span { IsSpan (C.state curve.now).curve_model.curve_spec a n }
    requires value { value ≡ (C.state curve.now).curve_model.curve_spec.track.value a }
    requires end_value { end_value ≡ (C.state curve.now).curve_model.curve_spec.track.value (a +ℤ pos n) }
    ensures { result ≡ is_quiet (C.state curve.now).curve_model.curve_spec a n }
{
    if (value > 0) != (end_value > 0) {
        return false;
    }
    is_quiet_by_rate(curve, a, n, value, end_value)
}

/// Returns true if the `n` minutes from minute `a` on can be one quiet cell; `value` and
/// `end_value` are the curve's values at `a` and at `a + n`.
fn is_quiet_by_rate<C: Curve>(curve: &C, a: i64, n: u32, value: i128, end_value: i128) -> bool
    requires span { IsSpan (C.state curve.now).curve_model.curve_spec a n }
    requires value { value ≡ (C.state curve.now).curve_model.curve_spec.track.value a }
    requires end_value { end_value ≡ (C.state curve.now).curve_model.curve_spec.track.value (a +ℤ pos n) }
    ensures { result ≡ is_quiet (C.state curve.now).curve_model.curve_spec a n }
{
    if n < 2 || n > MOST_MINUTES {
        return false;
    }
    match curve.rate(a, n) {
        Some(rate) => keeps_side(rate, n, value, end_value),
        None => false,
    }
}

/// Returns the cell of the single minute `a`: with an event if exactly one of the values at `a` and
/// at `a + 1` is above 0, otherwise without one. `is_above` and `is_above_next` say whether the
/// values at `a` and at `a + 1` are above 0.
pub fn cell_of_sides<C: Curve>(curve: &C, a: i64, is_above: bool, is_above_next: bool) -> Cell
    requires minute { IsMinute (C.state curve.now).curve_model.curve_spec a }
    requires side { is_above ≡ side_at (C.state curve.now).curve_model.curve_spec.track a }
    requires next_side { is_above_next ≡ side_at (C.state curve.now).curve_model.curve_spec.track (a +ℤ pos 1) }
    ensures { result ≡ unit_cell (C.state curve.now).curve_model.curve_spec.track a }
{
    if is_above_next == is_above {
        return Cell::Still;
    }
    Cell::Turn(
        kind_after(is_above, curve.rising(), curve.falling()),
        curve.note(a),
    )
}

/// Returns true if `value` and `end_value`, `n` minutes apart, are on one side of 0, and a value
/// that changes by at most `rate` in each minute can't cross 0 between them: both are above 0 and
/// their sum exceeds `rate * n`, or neither is and minus their sum is at least `rate * n`.
fn keeps_side(rate: i128, n: u32, value: i128, end_value: i128) -> bool
    requires positive { pos 0 ≤ℤ rate }
    requires rate { (rate *ℤ pos MOST_MINUTES) <ℤ pos (5 * 10 ^ 37) }
    requires count_bound { n ≤ MOST_MINUTES }
    requires value { unsigned_abs value < 10 ^ 37 }
    requires end_value { unsigned_abs end_value < 10 ^ 37 }
    ensures { result ≡ keeps_side (Some rate) n value end_value }
{
    let most = most_change(rate, n);
    let sum = value + end_value;
    if value > 0 {
        end_value > 0 && sum > most
    } else {
        end_value <= 0 && sum + most <= 0
    }
}

/// Returns `rate * n`: a value that changes by at most `rate` in each minute changes by at most
/// this in `n` minutes. `n` is from 0 to [`MOST_MINUTES`] (1,024), and `rate` isn't negative and is
/// below 5 * 10^37 / 1,024, so the result is below 5 * 10^37.
pub fn most_change(rate: i128, n: u32) -> i128
    requires positive { pos 0 ≤ℤ rate }
    requires rate { (rate *ℤ pos MOST_MINUTES) <ℤ pos (5 * 10 ^ 37) }
    requires count_bound { n ≤ MOST_MINUTES }
    ensures value { result ≡ rate *ℤ pos n }
    ensures size { unsigned_abs result < 5 * 10 ^ 37 }
{
    rate * i128::from(n)
}
