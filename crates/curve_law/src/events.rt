//! A list of events.

ghost use Rattle.std.specs.Prelude.{◌≡◌};

use crate::event::Event;
use std::marker::Model;

/// A list of events of a station, each with its minute, kind and level, such as a high water. In
/// contracts its value is the list of the events.
#[derive(Drop)]
pub struct Events {
    items: Vec<Event>,
}

impl Model for Events {
    ghost use Rattle.std.specs.Prelude.{List};
    ghost use Rattle.curve_law.specs.declared.event.Event.{Event};

    ghost Value = { List Event };

    ghost view = { λ l. l.items.items };
}

impl Events {
    /// Returns the list of the events in `items`, in their order. It doesn't allocate.
    pub fn from_vec(items: Vec<Event>) -> Events
        ensures { result ≡ items.items }
    {
        Events { items }
    }

    /// Borrows the events as a slice.
    pub fn as_slice(&self) -> &[Event]
        ensures { result.now ≡ self.now }
    {
        self.items.as_slice()
    }
}
