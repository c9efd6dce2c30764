//! Evaluations of curves that first check the minute and the number of evaluations.

ghost use Rattle.std.specs.Prelude.{◌≡◌, ◌<◌, ◌^◌, ◌≤ℤ◌, IsTrue};
ghost use Rattle.curve_law.specs.CurveSpec.{IsMinute};

use curve_law::{Curve, Kind};

/// Returns true if minute `m` is one of the curve's minutes, at which it has a value.
fn has_minute<C: Curve>(curve: &C, m: i64) -> bool
    ensures { IsTrue result → IsMinute (C.state curve.now).curve_model.curve_spec m }
{
    curve.first() <= m && m <= curve.last()
}

/// Returns true if the curve was evaluated at most 1,000,000 times.
fn is_evaluated_seldom<C: Curve>(curve: &C) -> bool
    ensures { IsTrue result → (C.state curve.now).count < 2 ^ 63 }
{
    curve.evaluations() <= 1_000_000
}

/// Returns the value of `curve` at minute `m`, or `None` if `m` isn't one of its minutes or the curve
/// was evaluated more than 1,000,000 times.
pub fn value_at<C: Curve>(curve: &mut C, m: i64) -> Option<i128> {
    if has_minute(curve, m) && is_evaluated_seldom(curve) {
        Some(curve.value(m))
    } else {
        None
    }
}

/// Returns the level, in millionths of the unit, with which an event of `curve` between the minutes
/// `m` and `m` + 1 is listed, or `None` if `m` isn't one of the curve's minutes.
pub fn note_at<C: Curve>(curve: &C, m: i64) -> Option<i64> {
    if has_minute(curve, m) {
        Some(curve.note(m))
    } else {
        None
    }
}

/// Returns true if cells from minute `begin` up to `end`, not included, may be found or checked on
/// `curve`, which was not evaluated yet.
pub fn can_begin<C: Curve>(curve: &C, begin: i64, end: i64) -> bool
    ensures forward { IsTrue result → begin ≤ℤ end }
    ensures first { IsTrue result → (C.state curve.now).curve_model.curve_spec.first ≤ℤ begin }
    ensures last { IsTrue result → end ≤ℤ (C.state curve.now).curve_model.curve_spec.last }
    ensures count { IsTrue result → (C.state curve.now).count ≡ 0 }
{
    begin <= end && curve.first() <= begin && end <= curve.last() && curve.evaluations() == 0
}

/// Returns true if the kinds of the events at which the value rises and falls past 0 are these.
pub fn has_kinds<C: Curve>(curve: &C, rising: Kind, falling: Kind) -> bool {
    curve.rising() == rising && curve.falling() == falling
}

/// Returns true if `evaluations`, the number of evaluations of a curve, is at most the number of
/// `cells`, plus 1.
pub fn is_few(evaluations: u64, cells: usize) -> bool {
    evaluations.saturating_sub(1) <= cells as u64
}
