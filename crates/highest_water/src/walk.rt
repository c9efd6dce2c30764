//! A walk over a span, one cell of a highest water after the other.

ghost use Rattle.std.specs.Prelude.{◌≡◌, ◌+◌, ◌^◌, ◌<◌, ◌≤◌, ◌≤ℤ◌, unsigned_abs, [], length, MatchOption};
ghost use Rattle.curve_law.specs.declared.point.Point.{Point};
ghost use Rattle.curve_law.specs.CurveStates.{evaluated_once};
ghost use Rattle.interval_search.specs.Workings.Ahead.{minutes_to, interval_of, IsFront};
ghost use Rattle.highest_water.specs.Covers.{cell_of, peak_cover};
ghost use Rattle.highest_water.specs.Workings.Walk.{cells_ahead, StepsTo};

use crate::peak_cell::PeakCell;
use crate::under_pieces::UnderPieces;
use curve_law::{Curve, Point};
use interval_search::{Front, Piece, front_at, next_piece};

/// A cell for a highest water (minutes none of which is higher, or a single minute), and the point
/// at which it begins: its first minute, and the curve's value at it.
#[derive(Clone, Copy)]
pub struct LocatedCell {
    /// The point at which the cell begins.
    pub at: Point,
    /// The cell: several minutes under a point, or a single minute.
    pub cell: PeakCell,
}

/// Returns the cell of a piece that isn't halved: a single minute if it is one, and otherwise a
/// cell of all its minutes.
fn cell_of(piece: Piece) -> PeakCell
    ensures { result ≡ cell_of (interval_of piece) }
{
    if piece.minutes <= 1 {
        PeakCell::Single
    } else {
        PeakCell::Under(piece.minutes)
    }
}

/// Starts a walk, which goes from cell to cell, over the minutes from `begin` up to but not
/// including `end`, both minutes of `curve`, and returns its state. The curve was evaluated at most
/// 2^62 + 2^60 times before, and is evaluated once more, at `begin`. The point `highest`, with a
/// value below 10^37 in size, has no effect on the result: each step of the walk takes its own.
pub fn walk_from<C: Curve>(curve: &mut C, highest: Point, begin: i64, end: i64) -> Front
    requires size { unsigned_abs highest.value < 10 ^ 37 }
    requires forward { begin ≤ℤ end }
    requires first { (C.state curve.old).curve_model.curve_spec.first ≤ℤ begin }
    requires last { end ≤ℤ (C.state curve.old).curve_model.curve_spec.last }
    requires count_bound { (C.state curve.old).count ≤ 2 ^ 62 + 2 ^ 60 }
    ensures after { C.state curve.new ≡ evaluated_once (C.state curve.old) }
    ensures at { result.at.minute ≡ begin }
    ensures end { result.end ≡ end }
    ensures walk_invariant { IsFront (C.state curve.old).curve_model.curve_spec.track.value (C.state curve.new) result }
    ensures cells { (highest : Point) → cells_ahead (C.state curve.old).curve_model.curve_spec highest result
        ≡ peak_cover (C.state curve.old).curve_model.curve_spec highest.minute highest.value begin (minutes_to begin end) }
    ensures none { result.pending ≡ [] }
{
    front_at(curve, &UnderPieces { highest }, begin, end)
}

/// Moves the walk past the next cell, and returns this cell with the point at which it begins, or
/// `None` if the walk is at the end of its span. By the curve's rate no minute of a cell of several
/// minutes is higher than the point `highest`, which may be another one at each call. The number of
/// evaluations is 1 plus the growth of the number of pending points (known ends of later cells),
/// which is -1 if one is used up; it is 0 for `None`.
pub fn next_cell<C: Curve>(curve: &mut C, front: &mut Front, highest: Point) -> Option<LocatedCell>
    requires size { unsigned_abs highest.value < 10 ^ 37 }
    requires walk_invariant { IsFront (C.state curve.old).curve_model.curve_spec.track.value (C.state curve.old) front.old }
    ensures unchanged { (C.state curve.new).curve_model ≡ (C.state curve.old).curve_model }
    ensures end { front.new.end ≡ front.old.end }
    ensures walk_invariant { IsFront (C.state curve.old).curve_model.curve_spec.track.value (C.state curve.new) front.new }
    ensures found { StepsTo (C.state curve.old).curve_model.curve_spec highest front.old result front.new }
    ensures count { MatchOption result ((C.state curve.new).count ≡ (C.state curve.old).count)
        (λ _. (C.state curve.new).count + length front.old.pending ≡ (C.state curve.old).count + length front.new.pending + 1) }
{
    match next_piece(curve, &UnderPieces { highest }, front) {
        Some(piece) => Some(LocatedCell {
            at: piece.begin,
            cell: cell_of(piece),
        }),
        None => None,
    }
}
