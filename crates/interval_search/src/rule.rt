//! The rule that says which pieces of a span are left whole and which are halved.

ghost use Rattle.std.specs.Prelude.{◌≡◌, ℕ, ◌^◌, ◌<◌, ℤ, Bool};
ghost use Rattle.curve_law.specs.CurveSpec.{CurveSpec, IsMinute};
ghost use Rattle.curve_law.specs.CurveStates.{CurveModel, evaluated_once};
ghost use Rattle.interval_search.specs.Workings.Ahead.{IsPiece};

use crate::piece::Piece;
use curve_law::{Curve, Point};

/// A rule for halving the pieces of a span (each is some consecutive minutes): which of them are
/// left whole, and how a curve is evaluated at their ends, exactly or approximately.
///
/// In contracts a rule is a test and values. Two rules of one type may have different tests, so the
/// test may change in the course of a search; the values are the same for all rules of a type.
pub trait PieceRule {
    /// The test in contracts: `whole rule c a n` is true if the rule leaves the `n` minutes from
    /// minute `a` on of the curve `c` whole.
    ghost whole: { Self → CurveSpec → ℤ → ℕ → Bool };

    /// The value, exact or approximate, that the rules of this type use at each minute of a curve.
    ghost values: { CurveModel → ℤ → ℤ };

    /// Evaluates `curve` at `minute`, one of its minutes, exactly or approximately as the rule does
    /// it, and returns the point of this minute and this value. The curve is evaluated once; it was
    /// evaluated fewer than 2^63 times before.
    fn evaluate<C: Curve>(&self, curve: &mut C, minute: i64) -> Point
        requires minute { IsMinute (C.state curve.old).curve_model.curve_spec minute }
        requires count_bound { (C.state curve.old).count < 2 ^ 63 }
        ensures point { result ≡ record { minute = minute; value = values (C.state curve.old).curve_model minute } }
        ensures after { C.state curve.new ≡ evaluated_once (C.state curve.old) };

    /// Returns true if the rule leaves `piece`, a piece of `curve` of 1 to 1,024 minutes, whole:
    /// the result is that of its test `whole` in contracts.
    fn is_whole<C: Curve>(&self, curve: &C, piece: Piece) -> bool
        requires { IsPiece (C.state curve.now).curve_model.curve_spec (values (C.state curve.now).curve_model) piece }
        ensures { result ≡ whole self.now (C.state curve.now).curve_model.curve_spec piece.begin.minute piece.minutes };
}
