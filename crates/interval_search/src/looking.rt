//! A search that returns the cells of a span one after the other.

ghost use Rattle.std.specs.Prelude.{◌≡◌, ◌+◌, ◌^◌, ◌≤◌, ◌-ℤ◌, ◌≤ℤ◌, length, unsigned_abs};
ghost use Rattle.curve_law.specs.Cover.{cover};
ghost use Rattle.curve_law.specs.CurveStates.{evaluated_once};
ghost use Rattle.interval_search.specs.Looking.{StepsOn};

use crate::found::Found;
use crate::front::{Front, front_at};
use crate::quiet_pieces::{QuietPieces, next_found};
use curve_law::Curve;
use std::marker::Model;

/// A search that returns the cells of a span (quiet minutes without an event, or one minute with or
/// without one) one after the other. It owns its curve and doesn't allocate.
///
/// In contracts its value is the curve, the minute that it has reached, the remaining cells, and a
/// bound on the number of evaluations of the curve, which stays the same while the search runs.
#[derive(Drop)]
pub struct Search<C: Curve> {
    curve: C,
    front: Front,
}

impl<C: Curve> Model for Search<C> {
    ghost use Rattle.interval_search.specs.Looking.{Looking};
    ghost use Rattle.interval_search.specs.Workings.Ahead.{IsFront};
    ghost use Rattle.interval_search.specs.Workings.Cells.{looking_at};

    ghost Value = { Looking C };

    ghost view = { λ s. looking_at s.curve (C.state s.curve) s.front };

    ghost invariant = { λ s. IsFront (C.state s.curve).curve_model.approximate (C.state s.curve) s.front };
}

impl<C: Curve> Search<C> {
    /// Returns a search over the minutes from `begin` up to but not including `end`, and evaluates
    /// the curve once. The caller ensures that `begin` and `end` are both minutes of `curve`, that
    /// `begin` isn't after `end`, and that the curve was evaluated at most 2^62 times before. All
    /// evaluations of the search together are at most one more than its cells.
    ///
    /// # Examples
    /// ```
    /// let mut search = Search::new(Line::new(-2, false, 1), 0, 8);
    /// let (quiet, event) = (Cell::Quiet(2), Cell::Turn(Kind::Low, 2));
    /// assert_eq!(rt; search.next(), Some(Found { at: 0, cell: quiet }));
    /// assert_eq!(rt; search.next(), Some(Found { at: 2, cell: event }));
    /// ```
    pub fn new(curve: C, begin: i64, end: i64) -> Search<C>
        requires forward { begin ≤ℤ end }
        requires first { (C.state curve).curve_model.curve_spec.first ≤ℤ begin }
        requires last { end ≤ℤ (C.state curve).curve_model.curve_spec.last }
        requires count_bound { (C.state curve).count ≤ 2 ^ 62 }
        ensures after { C.state result.curve ≡ evaluated_once (C.state curve) }
        ensures at { result.at ≡ begin }
        ensures remaining { result.remaining ≡ cover (C.state curve).curve_model.curve_spec begin (unsigned_abs (end -ℤ begin)) }
        ensures most { result.most ≡ (C.state curve).count + length result.remaining + 1 }
    {
        let mut curve = curve;
        let front = front_at(&mut curve, &QuietPieces, begin, end);
        Search { curve, front }
    }

    /// Returns the next cell and the minute at which it begins, or `None` if no cell remains, and
    /// moves past the cell. The bound `most` on the evaluations of the curve stays the same, and so
    /// do the curve's values and rates.
    #[inline(always)]
    pub fn next(&mut self) -> Option<Found>
        ensures found { StepsOn self.old result self.new }
        ensures unchanged { (C.state self.new.curve).curve_model ≡ (C.state self.old.curve).curve_model }
        ensures most { self.new.most ≡ self.old.most }
    {
        next_found(&mut self.curve, &mut self.front)
    }

    /// Does nothing when the program runs. It is for proofs: its contract gives the caller the fact
    /// that at most 2^61 cells of the search remain.
    pub fn cells_are_few(&self)
        ensures { length self.now.remaining ≤ 2 ^ 61 }
    {
        let _end = self.front.end;
    }

    /// Returns the number of evaluations of the curve until now, including those before the search
    /// began. It is at most `most`, the bound that the search has in contracts.
    ///
    /// The program doesn't call it.
    pub fn evaluations(&self) -> u64
        ensures count { result ≡ (C.state self.now.curve).count }
        ensures most { result ≤ self.now.most }
    {
        self.curve.evaluations()
    }
}
