//! A date with its events.

use curve_law::Event;
use std::alloc::{AllocError, Global};
use std::marker::Model;

/// A date with its events, in the order in which they were appended. The date is a day number, counted
/// from 1970-01-01 as day 0.
#[derive(Drop)]
pub struct CalendarPage {
    day: i64,
    events: Vec<Event>,
}

impl Model for CalendarPage {
    ghost use Rattle.calendar_sheet.specs.Workings.Dates as workings;

    ghost Value = { workings.CalendarPage };

    ghost view = { λ page. record { day = page.day; events = page.events.items } };
}

impl CalendarPage {
    ghost use Rattle.std.specs.Prelude.{◌≡◌, [], ◌∷◌, ◌++◌, OnOk};

    /// Returns the date with the number `day`, counted from 1970-01-01 as day 0, without events. It
    /// doesn't allocate.
    pub fn new(alloc: Global, day: i64) -> CalendarPage
        ensures { result ≡ record { day = day; events = [] } }
    {
        CalendarPage {
            day,
            events: Vec::new(alloc),
        }
    }

    /// Appends `event` to the events of this date.
    ///
    /// # Errors
    /// [`AllocError`] if memory runs out.
    pub fn push(&mut self, event: Event) -> Result<(), AllocError>
        ensures { OnOk result (self.new ≡ record self.old { events = self.old.events ++ event ∷ [] }) }
    {
        self.events.push(event)?;
        Ok(())
    }

    /// Returns the day number of this date, counted from 1970-01-01 as day 0.
    pub fn day(&self) -> i64
        ensures { result ≡ self.now.day }
    {
        self.day
    }

    /// Borrows the events of this date, in the order in which they were appended.
    pub fn events(&self) -> &[Event]
        ensures { result.now ≡ self.now.events }
    {
        self.events.as_slice()
    }
}
