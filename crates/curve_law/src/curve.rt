//! Curves: a value at each minute, and bounds on how fast it changes.

ghost use Rattle.std.specs.Prelude.{◌≡◌, ◌^◌, ◌<◌, ◌≤◌, ℤ, pos};
ghost use Rattle.curve_law.specs.CurveSpec.{IsMinute, IsCell, IsApproximateValue, IsLawful};
ghost use Rattle.curve_law.specs.CurveStates.{CurveState, evaluated_once};

use crate::kind::Kind;

/// A track (a value at each minute, with an event after each minute in which the value crosses 0)
/// that is evaluated minute by minute, with bounds on how fast the value changes.
///
/// Minutes are counted from 1970-01-01T00:00Z. In contracts the state of a curve has facts that no
/// call changes (first and last minute, values, levels, kinds of events, rates, approximate values
/// and their error) and the number of evaluations: the calls of `value` and `approximate_value`.
/// Calls of `exact_value`, `note` and `rate` aren't counted.
pub trait Curve {
    /// In contracts: the facts of the curve, and the number of its evaluations until now.
    ghost state: { Self → CurveState };

    /// Returns the first minute, since 1970-01-01T00:00Z, at which the curve has a value.
    fn first(&self) -> i64
        ensures { result ≡ (state self.now).curve_model.curve_spec.first };

    /// Returns the last minute, since 1970-01-01T00:00Z, at which the curve has a value.
    fn last(&self) -> i64
        ensures { result ≡ (state self.now).curve_model.curve_spec.last };

    /// Returns the value at minute `m`, a minute of the curve, in the curve's own unit. It is below
    /// 10^37 in size. The call counts as an evaluation; fewer than 2^63 were made before.
    fn value(&mut self, m: i64) -> i128
        requires minute { IsMinute (state self.old).curve_model.curve_spec m }
        requires count_bound { (state self.old).count < 2 ^ 63 }
        ensures value { result ≡ (state self.old).curve_model.curve_spec.track.value m }
        ensures after { state self.new ≡ evaluated_once (state self.old) };

    /// Returns an approximation of the value at minute `m`, a minute of the curve. It differs from
    /// the value by at most [`Curve::error`], and may take less time. The call counts as an
    /// evaluation; fewer than 2^63 were made before.
    fn approximate_value(&mut self, m: i64) -> i128
        requires minute { IsMinute (state self.old).curve_model.curve_spec m }
        requires count_bound { (state self.old).count < 2 ^ 63 }
        ensures value { result ≡ (state self.old).curve_model.approximate m }
        ensures after { state self.new ≡ evaluated_once (state self.old) };

    /// Returns the exact value at minute `m`, a minute of the curve, from the approximate one:
    /// `approximate_value` is the result of [`Curve::approximate_value`] for this minute. The call
    /// doesn't count as an evaluation.
    fn exact_value(&self, m: i64, approximate_value: i128) -> i128
        requires minute { IsMinute (state self.now).curve_model.curve_spec m }
        requires approximate { approximate_value ≡ (state self.now).curve_model.approximate m }
        ensures { result ≡ (state self.now).curve_model.curve_spec.track.value m };

    /// Returns a bound, at most 10^36, on the difference between the value at a minute of the curve
    /// and the result of [`Curve::approximate_value`].
    fn error(&self) -> i128
        ensures { result ≡ pos (state self.now).curve_model.error };

    /// Returns a bound on the change of the value in a minute: from each of the `n` minutes from
    /// minute `a` on to the next, the value changes by at most the result. `n` is from 1 to 1,024,
    /// and `a` and `a + n` are minutes of the curve. 1,024 times the result is below 5 * 10^37.
    /// `None` if the curve has no such bound there.
    fn rate(&self, a: i64, n: u32) -> Option<i128>
        requires { IsCell (state self.now).curve_model.curve_spec a n }
        ensures { result ≡ (state self.now).curve_model.curve_spec.rate a n };

    /// Returns the level, in millionths of the station's unit, with which an event after minute
    /// `m`, a minute of the curve, is listed. The minute need not have an event.
    fn note(&self, m: i64) -> i64
        requires { IsMinute (state self.now).curve_model.curve_spec m }
        ensures { result ≡ (state self.now).curve_model.curve_spec.track.note m };

    /// Returns the kind of the events at which the value rises from 0 or below to above 0.
    fn rising(&self) -> Kind
        ensures { result ≡ (state self.now).curve_model.curve_spec.track.rising };

    /// Returns the kind of the events at which the value falls from above 0 to 0 or below.
    fn falling(&self) -> Kind
        ensures { result ≡ (state self.now).curve_model.curve_spec.track.falling };

    /// Returns the number of evaluations until now: the calls of `value` and `approximate_value`.
    fn evaluations(&self) -> u64
        ensures { result ≡ (state self.now).count };

    /// The curve is lawful: its minutes are at most 2^60 and its values below 10^37 in size, and in
    /// each minute of a cell (1 to 1,024 minutes) the value changes by at most the cell's rate.
    ghost lawful: { (curve : Self) → IsLawful (state curve).curve_model.curve_spec };

    /// The error of approximate values is at most 10^36, so two of them can be added without
    /// overflow.
    ghost narrow: { (curve : Self) → (state curve).curve_model.error ≤ 10 ^ 36 };

    /// At each minute of the curve, the approximate value differs from the value by at most the
    /// error.
    ghost close: { (curve : Self) → (m : ℤ) → IsMinute (state curve).curve_model.curve_spec m
        → IsApproximateValue (state curve).curve_model.curve_spec (state curve).curve_model.error m ((state curve).curve_model.approximate m) };
}
