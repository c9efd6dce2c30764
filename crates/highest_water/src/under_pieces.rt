//! The rule that leaves the minutes under a point whole.

ghost use Rattle.std.specs.Prelude.{◌<◌, ◌^◌, unsigned_abs};

use crate::under::is_under;
use curve_law::{Curve, Point, point_at};
use interval_search::{Piece, PieceRule};

/// A rule for halving the blocks of a span: it leaves a piece (some consecutive minutes) whole if
/// it is under the point `highest`, that is, by the bound on the curve's change in a minute no
/// minute of it is higher. It evaluates the curve exactly.
#[derive(Drop)]
pub struct UnderPieces {
    /// The point, with a value below 10^37 in size.
    pub highest: Point,
    ghost small: { unsigned_abs highest.value < 10 ^ 37 },
}

impl PieceRule for UnderPieces {
    ghost use Rattle.curve_law.specs.CurveStates.{CurveModel};
    ghost use Rattle.highest_water.specs.Covers.{is_under};

    ghost whole = { λ rule c a n. is_under c rule.highest.minute rule.highest.value a n };

    ghost values = { λ (curve_model : CurveModel). curve_model.curve_spec.track.value };

    fn evaluate<C: Curve>(&self, curve: &mut C, minute: i64) -> Point {
        point_at(curve, minute)
    }

    fn is_whole<C: Curve>(&self, curve: &C, piece: Piece) -> bool {
        is_under(
            curve,
            self.highest,
            piece.begin,
            piece.minutes,
            piece.end.value,
        )
    }
}
