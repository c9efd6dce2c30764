//! The events of one search of a curve, one at a time.

ghost use Rattle.std.specs.Prelude.{◌≡◌, ◌+◌, ◌^◌, ◌<◌, ◌≤◌, drop, length, [], None, option_to_list};
ghost use Rattle.curve_law.specs.Cells.{event_in};
ghost use Rattle.event_list.specs.Merging.{without_event, looked, pending};
ghost use Rattle.event_list.specs.Workings.Coming.{cells_ahead, searched_by, FindsNext, ReturnsEvent};

use curve_law::{Cell, Curve, Event};
use interval_search::{Found, Search};
use std::marker::Model;

/// The events that one search of a curve finds, one at a time; no events if there is no search. The
/// search advances only when the caller takes its next event.
///
/// In contracts its value is the remaining events, the state of the search, the number of cells that
/// the search has returned since [`Coming::new`], and the number of cells that it had yet to return
/// then.
#[derive(Drop)]
pub struct Coming<C: Curve> {
    search: Option<Search<C>>,
    event: Option<Event>,
    cells_given: u64,
}

impl<C: Curve> Model for Coming<C> {
    ghost use Rattle.std.specs.Prelude.{◌+◌, ◌<◌, ◌^◌, ◌++◌, option_to_list};
    ghost use Rattle.event_list.specs.Merging.{pending};
    ghost use Rattle.event_list.specs.Workings.Coming.{events_ahead, cells_ahead, Strand};

    ghost Value = { Strand };

    ghost view = { λ c. record {
      remaining = option_to_list c.event ++ events_ahead c.search;
      pending = pending c.event c.search;
      cells = c.cells_given;
      all = c.cells_given + cells_ahead c.search;
    } };

    ghost invariant = { λ c. c.cells_given + cells_ahead c.search < 2 ^ 64 };
}

impl<C: Curve> Coming<C> {
    ghost use Rattle.event_list.specs.Workings.Coming.{events_ahead, cells_ahead, first_of};

    /// Returns the events in the remaining cells of `search`, which may have returned cells
    /// already; no events if `search` is `None`. The result has no event pending (found but not yet
    /// returned). The contract also says that at most 2^61 cells of `search` remain; the caller
    /// doesn't have to ensure it.
    pub fn new(search: Option<Search<C>>) -> Coming<C>
        ensures remaining { result.remaining ≡ events_ahead search }
        ensures pending { result.pending ≡ pending None search }
        ensures cells { result.cells ≡ 0 }
        ensures all { result.all ≡ cells_ahead search }
        ensures few { cells_ahead search ≤ 2 ^ 61 }
    {
        cells_are_few(&search);
        Coming {
            search,
            event: None,
            cells_given: 0,
        }
    }

    /// Returns the next event without removing it, or `None` if no event remains; the search has
    /// then returned all its cells. If the next event isn't pending (found but not yet returned),
    /// the search advances to it, and it is pending afterwards. The number of the cells returned
    /// since [`Coming::new`] and the cells that remain together (`all`) doesn't change.
    pub fn peek(&mut self) -> Option<Event>
        ensures first { result ≡ first_of self.old.remaining }
        ensures found { result ≡ (looked self.old.pending).found }
        ensures unchanged { self.new.remaining ≡ self.old.remaining }
        ensures asked { self.new.pending ≡ looked self.old.pending }
        ensures all { self.new.all ≡ self.old.all }
        ensures counted { self.new.cells + length self.new.pending.cells ≡ self.new.all }
        ensures done { self.old.remaining ≡ [] → self.new.cells ≡ self.new.all }
    {
        match self.event {
            Some(event) => Some(event),
            None => {
                self.event = next_event(&mut self.search, &mut self.cells_given);
                self.event
            }
        }
    }

    /// Removes the next event and returns it, or returns `None` if no event remains; the search has
    /// then returned all its cells. If the event isn't pending (found but not yet returned), the
    /// search advances to it first. The cells returned since [`Coming::new`] and the remaining ones
    /// are together the cells that the search had yet to return then.
    pub fn next(&mut self) -> Option<Event>
        ensures first { result ≡ first_of self.old.remaining }
        ensures rest { self.new.remaining ≡ drop 1 self.old.remaining }
        ensures asked { self.new.pending ≡ without_event (looked self.old.pending) }
        ensures all { self.new.all ≡ self.old.all }
        ensures counted { self.new.cells + length self.new.pending.cells ≡ self.new.all }
        ensures done { self.old.remaining ≡ [] → self.new.cells ≡ self.new.all }
    {
        match self.event.take() {
            Some(event) => Some(event),
            None => next_event(&mut self.search, &mut self.cells_given),
        }
    }

    /// Returns the number of cells that the search has returned since [`Coming::new`].
    pub fn cells(&self) -> u64
        ensures { result ≡ self.now.cells }
    {
        self.cells_given
    }
}

/// Does nothing. Its contract says that at most 2^61 cells of `search` remain.
fn cells_are_few<C: Curve>(search: &Option<Search<C>>)
    ensures { cells_ahead search.now ≤ 2 ^ 61 }
{
    if let Some(search) = search {
        search.cells_are_few();
    }
}

/// Returns the next event of `search`, or `None` if no event remains, and adds the number of cells
/// that the search has returned for it to `cells_given`.
#[inline(never)]
fn next_event<C: Curve>(search: &mut Option<Search<C>>, cells_given: &mut u64) -> Option<Event>
    requires { cells_given.old + cells_ahead search.old < 2 ^ 64 }
    ensures event { ReturnsEvent search.old result search.new }
    ensures asked { searched_by search.old ≡ pending result search.new }
    ensures cells { cells_given.new + cells_ahead search.new ≡ cells_given.old + cells_ahead search.old }
{
    while let Some(found) = next_found(search) {
        *cells_given += 1;
        if let Some(event) = event_in(found) {
            return Some(event);
        }
    }
    None
}

/// Returns the next cell of `search` and the minute at which it begins, or `None` if no cell
/// remains or there is no search.
#[inline(always)]
fn next_found<C: Curve>(search: &mut Option<Search<C>>) -> Option<Found>
    ensures { FindsNext search.old result search.new }
{
    match search {
        Some(search) => search.next(),
        None => None,
    }
}

/// Returns the event in the cell `found`, or `None` if the cell has none.
fn event_in(found: Found) -> Option<Event>
    ensures { option_to_list result ≡ event_in found.at found.cell }
{
    match found.cell {
        Cell::Turn(kind, level) => Some(Event {
            minute: found.at,
            kind,
            level,
        }),
        Cell::Quiet(_) | Cell::Still => None,
    }
}
