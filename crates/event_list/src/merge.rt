//! The events of a station's searches, one at a time.

ghost use Rattle.std.specs.Prelude.{◌≡◌, ◌+◌, Some, None};
ghost use Rattle.std.specs.Option.{ForSome};
ghost use Rattle.event_list.specs.Events.{merged_of, cells_in};
ghost use Rattle.event_list.specs.Merging.{cells_to_come, stepped, tracks_left, pending, ReturnsNext};

use crate::coming::Coming;
use crate::leading::{Leading, leading_of};
use curve_law::{Curve, Event};
use interval_search::Search;
use std::marker::Model;

/// The events that the searches of a station's curves find (one to three searches), in listing order
/// (by minute, then by kind, then by level), one at a time. A merge doesn't allocate, and a search
/// advances only when its next event is needed.
///
/// In contracts its value is the remaining events, for each search its pending event (found but not yet
/// returned) and its remaining cells, the number of cells that the searches have returned since
/// [`Merge::new`], and the number of cells that they had yet to return then.
#[derive(Drop)]
pub struct Merge<A: Curve, B: Curve> {
    turn: Coming<A>,
    slack: Coming<B>,
    mark: Coming<B>,
}

impl<A: Curve, B: Curve> Model for Merge<A, B> {
    ghost use Rattle.event_list.specs.Merging.{Merging};
    ghost use Rattle.event_list.specs.Workings.Coming.{MergeInvariant, merging_of};

    ghost Value = { Merging };

    ghost view = { λ m. merging_of m.turn m.slack m.mark };

    ghost invariant = { λ m. MergeInvariant m.turn m.slack m.mark };
}

impl<A: Curve, B: Curve> Merge<A, B> {
    /// Returns the merge of the searches for a station's high and low waters, slack waters and
    /// crossings of a mark, which have all reached the same minute. `None` for `slack` or `mark`
    /// means that there are no events of this kind. No event is pending (found but not yet
    /// returned).
    pub fn new(turn: Search<A>, slack: Option<Search<B>>, mark: Option<Search<B>>) -> Merge<A, B>
        requires slack_at { ForSome slack (λ search. search.at ≡ turn.at) }
        requires mark_at { ForSome mark (λ search. search.at ≡ turn.at) }
        ensures remaining { result.remaining ≡ merged_of turn.at (tracks_left turn slack mark) }
        ensures pending { result.pending
            ≡ record { turn = pending None (Some turn); slack = pending None slack; mark = pending None mark } }
        ensures cells { result.cells ≡ 0 }
        ensures all { result.all ≡ cells_in (tracks_left turn slack mark) }
    {
        Merge {
            turn: Coming::new(Some(turn)),
            slack: Coming::new(slack),
            mark: Coming::new(mark),
        }
    }

    /// Removes the next event and returns it, or returns `None` if no event remains; the searches have
    /// then returned all their cells. A search advances only if it has no pending event (found but not
    /// yet returned).
    pub fn next(&mut self) -> Option<Event>
        ensures next { ReturnsNext self.old result self.new }
        ensures asked { self.new.pending ≡ stepped self.old.pending }
        ensures all { self.new.all ≡ self.old.all }
    {
        let turn = self.turn.peek();
        let slack = self.slack.peek();
        let mark = self.mark.peek();
        match leading_of(turn, slack, mark) {
            Leading::Turn => self.turn.next(),
            Leading::Slack => self.slack.next(),
            Leading::Mark => self.mark.next(),
        }
    }

    /// Returns the number of cells that the searches have returned since [`Merge::new`]. These and
    /// the cells that they have yet to return are all cells that they had yet to return then.
    pub fn cells(&self) -> u64
        ensures value { result ≡ self.now.cells }
        ensures cells_given { result + cells_to_come self.now.pending ≡ self.now.all }
    {
        self.turn.cells() + self.slack.cells() + self.mark.cells()
    }
}
