//! The events that a sheet has collected.

ghost use Rattle.std.specs.Prelude.{◌≤◌, length, All};
ghost use Rattle.event_text.specs.Lines.{IsListed};
ghost use Rattle.report_sheets.specs.Sheets.{IsLimit, IsHead};

use crate::head::Head;
use crate::taken::Taken;
use curve_law::Event;
use decimal_text::Text;
use harmonics_book::Units;
use std::alloc::{AllocError, Global};

/// The head and the events of one page of a report, collected until the page's text is written.
#[derive(Drop)]
pub struct Collected {
    /// The greatest number of events that the sheet accepts, from 1 to 1,000,000.
    pub limit: u32,
    pub head: Head,
    /// The events in the order in which the sheet accepted them. Each has a [`word`](event_text::word)
    /// in the head's unit, a level in millionths of this unit, and a minute in the years 2 to 9300 or on
    /// the day before them.
    pub events: Vec<Event>,
    pub ghost limited: { IsLimit limit },
    pub ghost headed: { IsHead head },
    pub ghost within: { length events.items ≤ limit },
    pub ghost listed: { All (IsListed head.units) events.items },
}

impl Collected {
    ghost use Rattle.std.specs.Prelude.{◌≡◌, [], IfOk, OnOk, OnErr};
    ghost use Rattle.report_sheets.specs.Sheets.{first_head, taken_of, list_after};

    /// Returns a collection that accepts at most `limit` events, from 1 to 1,000,000. It has no events
    /// yet, and a head with an empty name, the unit feet and minute 0. The call doesn't allocate.
    pub fn new(alloc: Global, limit: u32) -> Collected
        requires { IsLimit limit }
        ensures limit { result.limit ≡ limit }
        ensures head { result.head ≡ first_head }
        ensures empty { result.events.items ≡ [] }
    {
        Collected {
            limit,
            head: Head {
                name: Text::empty(alloc),
                units: Units::Feet,
                now: 0,
            },
            events: Vec::new(alloc),
        }
    }

    /// Removes all events and stores a copy of `head`, in which the name has no control characters and
    /// the unit isn't knots squared.
    ///
    /// # Errors
    /// [`AllocError`] if memory runs out: then all events are removed too, and the old head stays.
    pub fn open(&mut self, head: &Head) -> Result<(), AllocError>
        requires { IsHead head.now }
        ensures limit { self.new.limit ≡ self.old.limit }
        ensures empty { self.new.events.items ≡ [] }
        ensures ok { OnOk result (self.new.head ≡ head.entry.now) }
        ensures err { OnErr result (self.new.head ≡ self.old.head) }
    {
        self.events.clear();
        self.head = head.copy()?;
        Ok(())
    }

    /// Appends `event` and returns [`Taken::Kept`], or changes nothing and returns [`Taken::Full`] if
    /// there are as many events as the limit. The event has a name in the head's unit, and a minute in
    /// the years 2 to 9300 or on the day before them.
    ///
    /// # Errors
    /// [`AllocError`] if memory runs out: then nothing changes.
    pub fn take(&mut self, event: &Event) -> Result<Taken, AllocError>
        requires { IsListed self.old.head.units event.now }
        ensures limit { self.new.limit ≡ self.old.limit }
        ensures head { self.new.head ≡ self.old.head }
        ensures answer { IfOk result (λ taken. taken ≡ taken_of self.old.limit self.old.events.items) }
        ensures list { OnOk result (self.new.events.items ≡ list_after self.old.limit self.old.events.items event.now) }
        ensures err { OnErr result (self.new.events.items ≡ self.old.events.items) }
    {
        if self.events.len() == self.limit as usize {
            return Ok(Taken::Full);
        }
        self.events.push(*event)?;
        Ok(Taken::Kept)
    }
}
