//! A stack of the points that a search has still to reach.

ghost use Rattle.std.specs.Prelude.{◌≡◌, ◌<◌, [], ◌∷◌, length, MatchOption};

use arrayvec::ArrayVec;
use curve_law::Point;
use std::marker::Model;

/// A stack of at most sixteen points (a point is a minute and a curve's value at it). In contracts
/// its value is the list of the points, the last one pushed first.
#[derive(Drop)]
pub struct Pending {
    points: ArrayVec<Point, 16>,
}

impl Model for Pending {
    ghost use Rattle.std.specs.Prelude.{List, reverse};
    ghost use Rattle.curve_law.specs.declared.point.Point.{Point};

    ghost Value = { List Point };

    ghost view = { λ w. reverse w.points.items };
}

impl Pending {
    /// Returns the empty stack.
    pub fn new() -> Pending
        ensures { result ≡ [] }
    {
        Pending {
            points: ArrayVec::new(),
        }
    }

    /// Pushes `point` onto the stack. The caller ensures that the stack has at most fifteen points
    /// before.
    pub fn push(&mut self, point: Point)
        requires { length self.old < 16 }
        ensures { self.new ≡ point ∷ self.old }
    {
        self.points.push(point);
    }

    /// Removes and returns the point that was pushed last, or returns `None` if the stack is empty.
    pub fn pop(&mut self) -> Option<Point>
        ensures { MatchOption result ((self.old ≡ []) × (self.new ≡ [])) (λ point. self.old ≡ point ∷ self.new) }
    {
        self.points.pop()
    }
}
