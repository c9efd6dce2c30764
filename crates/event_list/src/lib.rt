//! The events of a station.
//!
//! [`track_events`] and [`merged`] return all events in the cells of a station's tracks, and a
//! [`Merge`] of searches returns them one at a time without allocating. For a subordinate station,
//! [`widened`] returns the reference station's span that determines its events, [`shifted`] returns its
//! events, and [`scaled`] a level. `specs/Events.antt` defines the events of a station. [`word`]
//! returns the name of an event.
#![tactic(auto)]

mod coming;
mod laws;
mod leading;
mod merge;
mod merging;
mod moving;
mod rank;
mod scaling;
mod shifting;
mod span;
mod turning;
mod widening;
mod worked_events;

pub use event_text::{EventWord, word};
pub use laws::{
    accepted_events_can_be_moved, cells_give_the_events, events_are_named, plain_bases_move_nothing,
};
pub use merge::Merge;
pub use merging::merged;
pub use scaling::scaled;
pub use shifting::shifted;
pub use span::Span;
pub use turning::track_events;
pub use widening::widened;
pub use worked_events::{worked_orders, worked_shifts, worked_stations};
