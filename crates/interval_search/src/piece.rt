//! Pieces: the minutes between two points of a curve.

ghost use Rattle.std.specs.Prelude.{◌≡◌, ◌/◌, ◌≤◌, ◌^◌, pos, ◌+ℤ◌, ◌≤ℤ◌, ◌<ℤ◌, unsigned_abs, min};
ghost use Rattle.curve_law.specs.Pieces.{stays_whole};
ghost use Rattle.interval_search.specs.Workings.Ahead.{minutes_to, piece_between, IsPiece};

use crate::rule::PieceRule;
use curve_law::{Curve, MOST_MINUTES, Point};

/// A piece of a span: the minutes from one point of a curve (a minute and the value at it) up to
/// but not including another. A search makes pieces by cutting the span into blocks and halving
/// them.
#[derive(Clone, Copy)]
pub struct Piece {
    /// The first minute of the piece, and the curve's value at it.
    pub begin: Point,
    /// The end of the piece, which isn't one of its minutes, and the curve's value at it.
    pub end: Point,
    /// The number of minutes from `begin` to `end`. In a search it is from 1 to [`MOST_MINUTES`]
    /// (1,024).
    pub minutes: u32,
}

/// Returns the piece of the minutes from the point `begin` up to but not including the point `end`,
/// which is 1 to [`MOST_MINUTES`] (1,024) minutes later.
pub fn piece_between(begin: Point, end: Point) -> Piece
    requires some { begin.minute <ℤ end.minute }
    requires count_bound { end.minute ≤ℤ (begin.minute +ℤ pos MOST_MINUTES) }
    ensures { result ≡ piece_between begin end }
{
    Piece {
        begin,
        end,
        minutes: (end.minute - begin.minute) as u32,
    }
}

/// Returns true if `piece`, a piece of `curve`, isn't halved: it is one minute, or `rule` leaves it
/// whole.
pub fn stays_whole<C: Curve, R: PieceRule>(curve: &C, rule: &R, piece: Piece) -> bool
    requires { IsPiece (C.state curve.now).curve_model.curve_spec (R.values (C.state curve.now).curve_model) piece }
    ensures { result ≡ stays_whole (R.whole rule.now (C.state curve.now).curve_model.curve_spec) piece.begin.minute piece.minutes }
{
    piece.minutes <= 1 || rule.is_whole(curve, piece)
}

/// Returns the minute at which the second half of `piece` begins. The first half has half of its
/// minutes, rounded down. The first minute of `piece` is at most 2^60 in size.
pub fn halfway(piece: Piece) -> i64
    requires in_range { unsigned_abs piece.begin.minute ≤ 2 ^ 60 }
    ensures { result ≡ piece.begin.minute +ℤ pos (piece.minutes / 2) }
{
    piece.begin.minute + i64::from(piece.minutes / 2)
}

/// Returns the end of the block that begins at the minute `begin`: `begin + 1024`
/// ([`MOST_MINUTES`]), or `end`, the end of the span, if that is earlier. `begin` is before `end`,
/// and from -2^60 to 2^60.
pub fn block_end(begin: i64, end: i64) -> i64
    requires some { begin <ℤ end }
    requires in_range { unsigned_abs begin ≤ 2 ^ 60 }
    ensures { result ≡ begin +ℤ pos (min (minutes_to begin end) MOST_MINUTES) }
{
    end.min(begin + i64::from(MOST_MINUTES))
}
