//! A minute and the value at it.

ghost use Rattle.std.specs.Prelude.{◌≡◌, ◌^◌, ◌<◌};
ghost use Rattle.curve_law.specs.CurveSpec.{IsMinute};
ghost use Rattle.curve_law.specs.CurveStates.{evaluated_once};

use crate::curve::Curve;

/// A minute, since 1970-01-01T00:00Z, and the value of a curve at it, exact or approximate, in the
/// curve's own unit.
#[derive(Clone, Copy, Default)]
pub struct Point {
    /// The minute, since 1970-01-01T00:00Z.
    pub minute: i64,
    /// The value at the minute, in the curve's own unit.
    pub value: i128,
}

/// Evaluates `curve` exactly at `minute`, one of its minutes, and returns the point of this minute
/// and the value. The call counts as one evaluation; fewer than 2^63 were made before.
pub fn point_at<C: Curve>(curve: &mut C, minute: i64) -> Point
    requires minute { IsMinute (C.state curve.old).curve_model.curve_spec minute }
    requires count_bound { (C.state curve.old).count < 2 ^ 63 }
    ensures point { result ≡ record { minute = minute; value = (C.state curve.old).curve_model.curve_spec.track.value minute } }
    ensures after { C.state curve.new ≡ evaluated_once (C.state curve.old) }
{
    Point {
        minute,
        value: curve.value(minute),
    }
}

/// Evaluates `curve` approximately at `minute`, one of its minutes, and returns the point of this
/// minute and the approximate value. The call counts as one evaluation; fewer than 2^63 were made
/// before.
#[inline(always)]
pub fn approximate_point_at<C: Curve>(curve: &mut C, minute: i64) -> Point
    requires minute { IsMinute (C.state curve.old).curve_model.curve_spec minute }
    requires count_bound { (C.state curve.old).count < 2 ^ 63 }
    ensures point { result ≡ record { minute = minute; value = (C.state curve.old).curve_model.approximate minute } }
    ensures after { C.state curve.new ≡ evaluated_once (C.state curve.old) }
{
    Point {
        minute,
        value: curve.approximate_value(minute),
    }
}
