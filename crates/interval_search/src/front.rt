//! The state of a search: the point that it has reached, and the ends of the pieces after it.

ghost use Rattle.std.specs.Prelude.{◌≡◌, ◌+◌, ◌^◌, ◌≤◌, ℤ, ℕ, Bool, ◌≤ℤ◌, ◌<ℤ◌, true, [], ◌∷◌, length, IfSome, MatchOption};
ghost use Rattle.curve_law.specs.CurveStates.{evaluated_once};
ghost use Rattle.curve_law.specs.Pieces.{stays_whole};
ghost use Rattle.interval_search.specs.Workings.Ahead.{piece_between, pieces_after, SearchInvariant, IsFront, IsPiece, StepsTo};

use crate::pending::Pending;
use crate::piece::{Piece, block_end, halfway, piece_between, stays_whole};
use crate::rule::PieceRule;
use curve_law::{Curve, Point};

/// Removes the nearest end point from `pending` and returns it. If `pending` is empty, evaluates
/// the curve at the end of the block that begins at `at`, and returns this point.
#[inline(always)]
fn nearest_end<C: Curve, R: PieceRule>(
    curve: &mut C,
    rule: &R,
    pending: &mut Pending,
    at: Point,
    end: i64,
) -> Point
    requires search_invariant { SearchInvariant (R.values (C.state curve.old).curve_model) (C.state curve.old) end at pending.old }
    requires onward { at.minute <ℤ end }
    ensures unchanged { (C.state curve.new).curve_model ≡ (C.state curve.old).curve_model }
    ensures search_invariant { SearchInvariant (R.values (C.state curve.old).curve_model) (C.state curve.new) end at (result ∷ pending.new) }
    ensures pieces { (test : ℤ → ℕ → Bool) → pieces_after test end at.minute (result ∷ pending.new)
        ≡ pieces_after test end at.minute pending.old }
    ensures count { (C.state curve.new).count + length pending.old ≡ (C.state curve.old).count + length pending.new + 1 }
{
    match pending.pop() {
        Some(point) => point,
        None => rule.evaluate(curve, block_end(at.minute, end)),
    }
}

/// Returns the first piece from `at` on that isn't halved: the piece from `at` to `next_end`, or
/// its first half, or the first half of this half, and so on. The ends of the pieces after it are
/// pushed onto `pending`.
#[inline(always)]
fn nearest_piece<C: Curve, R: PieceRule>(
    curve: &mut C,
    rule: &R,
    pending: &mut Pending,
    at: Point,
    next_end: Point,
    end: i64,
) -> Piece
    requires search_invariant { SearchInvariant (R.values (C.state curve.old).curve_model) (C.state curve.old) end at (next_end ∷ pending.old) }
    ensures unchanged { (C.state curve.new).curve_model ≡ (C.state curve.old).curve_model }
    ensures search_invariant { SearchInvariant (R.values (C.state curve.old).curve_model) (C.state curve.new) end at (result.end ∷ pending.new) }
    ensures piece { result ≡ piece_between at result.end }
    ensures whole { stays_whole (R.whole rule.now (C.state curve.old).curve_model.curve_spec) result.begin.minute result.minutes ≡ true }
    ensures pieces { pieces_after (R.whole rule.now (C.state curve.old).curve_model.curve_spec) end at.minute (result.end ∷ pending.new)
        ≡ pieces_after (R.whole rule.now (C.state curve.old).curve_model.curve_spec) end at.minute (next_end ∷ pending.old) }
    ensures count { (C.state curve.new).count + length pending.old ≡ (C.state curve.old).count + length pending.new }
{
    let mut next_end = next_end;
    loop {
        let piece = piece_between(at, next_end);
        if stays_whole(curve, rule, piece) {
            return piece;
        }
        pending.push(next_end);
        next_end = rule.evaluate(curve, halfway(piece));
    }
}

/// The state of a search that goes through a span of time from piece to piece: the point that it
/// has reached, the ends of later pieces that it already knows (pending points), and the span's
/// end.
#[derive(Drop)]
pub struct Front {
    /// The point that the search has reached: a minute, and the value that the rule uses at it.
    pub at: Point,
    /// The ends of the pieces after this point that are already known, the nearest first, with
    /// their values.
    pub pending: Pending,
    /// The end of the span, in minutes since 1970-01-01T00:00Z, which isn't part of it.
    pub end: i64,
}

/// Starts a search for the pieces that `rule` leaves whole, over the minutes from `begin` up to but
/// not including `end`, and returns its state, at `begin` and with no pending points. Both are
/// minutes of `curve`, and `begin` isn't after `end`. The curve is evaluated once, at `begin`, as
/// the rule does it; before the call it was evaluated at most 2^62 + 2^60 times.
pub fn front_at<C: Curve, R: PieceRule>(curve: &mut C, rule: &R, begin: i64, end: i64) -> Front
    requires forward { begin ≤ℤ end }
    requires first { (C.state curve.old).curve_model.curve_spec.first ≤ℤ begin }
    requires last { end ≤ℤ (C.state curve.old).curve_model.curve_spec.last }
    requires count_bound { (C.state curve.old).count ≤ 2 ^ 62 + 2 ^ 60 }
    ensures after { C.state curve.new ≡ evaluated_once (C.state curve.old) }
    ensures front { result ≡ record {
      at = record { minute = begin; value = R.values (C.state curve.old).curve_model begin };
      pending = [];
      end = end;
    } }
    ensures search_invariant { IsFront (R.values (C.state curve.old).curve_model) (C.state curve.new) result }
{
    Front {
        at: rule.evaluate(curve, begin),
        pending: Pending::new(),
        end,
    }
}

/// Moves the search past the next piece (one minute, or minutes that `rule` leaves whole), and
/// returns this piece, or `None` if the search has reached the end of its span. The number of
/// evaluations of the curve is 1 plus the growth of the number of pending points (known ends of
/// later pieces), which is -1 if one is used up; it is 0 for `None`.
#[inline(always)]
pub fn next_piece<C: Curve, R: PieceRule>(
    curve: &mut C,
    rule: &R,
    front: &mut Front,
) -> Option<Piece>
    requires { IsFront (R.values (C.state curve.old).curve_model) (C.state curve.old) front.old }
    ensures unchanged { (C.state curve.new).curve_model ≡ (C.state curve.old).curve_model }
    ensures end { front.new.end ≡ front.old.end }
    ensures search_invariant { IsFront (R.values (C.state curve.old).curve_model) (C.state curve.new) front.new }
    ensures piece { IfSome result (IsPiece (C.state curve.old).curve_model.curve_spec (R.values (C.state curve.old).curve_model)) }
    ensures found { StepsTo (R.whole rule.now (C.state curve.old).curve_model.curve_spec) front.old result front.new }
    ensures count { MatchOption result ((C.state curve.new).count ≡ (C.state curve.old).count)
        (λ _. (C.state curve.new).count + length front.old.pending ≡ (C.state curve.old).count + length front.new.pending + 1) }
{
    let Front { at, end, .. } = *front;
    if at.minute == end {
        return None;
    }
    let next_end = nearest_end(curve, rule, &mut front.pending, at, end);
    let piece = nearest_piece(curve, rule, &mut front.pending, at, next_end, end);
    front.at = piece.end;
    Some(piece)
}
