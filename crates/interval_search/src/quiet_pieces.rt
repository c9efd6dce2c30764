//! The rule that leaves quiet minutes whole, and the cells of pieces.

ghost use Rattle.std.specs.Prelude.{◌≡◌};
ghost use Rattle.curve_law.specs.Cover.{is_quiet, cell_of};
ghost use Rattle.curve_law.specs.CurveStates.{CurveModel};
ghost use Rattle.interval_search.specs.Workings.Ahead.{IsPiece, interval_of, IsFront};
ghost use Rattle.interval_search.specs.Workings.Cells.{looking_at};
ghost use Rattle.interval_search.specs.Looking.{StepsOn};

use crate::found::Found;
use crate::front::{Front, next_piece};
use crate::piece::Piece;
use crate::rule::PieceRule;
use curve_law::{
    Cell, Curve, Point, approximate_point_at, is_quiet_from_approximate, unit_cell_from_approximate,
};

/// The rule that leaves a piece whole if it can be one quiet cell (2 to 1,024 minutes in which, by
/// a bound on the curve's change in a minute, its value can't cross 0). It evaluates the curve
/// approximately.
pub struct QuietPieces;

impl PieceRule for QuietPieces {
    ghost whole = { λ _ c a n. is_quiet c a n };

    ghost values = { λ (curve_model : CurveModel). curve_model.approximate };

    fn evaluate<C: Curve>(&self, curve: &mut C, minute: i64) -> Point {
        approximate_point_at(curve, minute)
    }

    fn is_whole<C: Curve>(&self, curve: &C, piece: Piece) -> bool {
        is_quiet_from_approximate(
            curve,
            piece.begin.minute,
            piece.minutes,
            piece.begin.value,
            piece.end.value,
        )
    }
}

/// Returns the cell of a piece that isn't halved: a cell of one minute if the piece is one minute,
/// and otherwise a quiet cell.
fn cell_of<C: Curve>(curve: &C, piece: Piece) -> Cell
    requires { IsPiece (C.state curve.now).curve_model.curve_spec (C.state curve.now).curve_model.approximate piece }
    ensures { result ≡ cell_of (C.state curve.now).curve_model.curve_spec (interval_of piece) }
{
    let Piece {
        begin,
        end,
        minutes,
    } = piece;
    if minutes <= 1 {
        unit_cell_from_approximate(curve, begin.minute, begin.value, end.value)
    } else {
        Cell::Quiet(minutes)
    }
}

/// Moves the search past the next cell, and returns this cell and the minute at which it begins, or
/// `None` if the search has reached the end of its span. The bound `most` on all evaluations of the
/// curve stays the same.
#[inline(always)]
pub fn next_found<C: Curve>(curve: &mut C, front: &mut Front) -> Option<Found>
    requires { IsFront (C.state curve.old).curve_model.approximate (C.state curve.old) front.old }
    ensures unchanged { (C.state curve.new).curve_model ≡ (C.state curve.old).curve_model }
    ensures search_invariant { IsFront (C.state curve.old).curve_model.approximate (C.state curve.new) front.new }
    ensures found { StepsOn (looking_at curve.old (C.state curve.old) front.old) result
        (looking_at curve.new (C.state curve.new) front.new) }
    ensures most { (looking_at curve.new (C.state curve.new) front.new).most ≡ (looking_at curve.old (C.state curve.old) front.old).most }
{
    match next_piece(curve, &QuietPieces, front) {
        Some(piece) => Some(Found {
            at: piece.begin.minute,
            cell: cell_of(curve, piece),
        }),
        None => None,
    }
}
