//! Tracks, curves and events: the definitions of values that cross zero.
//!
//! A track has a whole number, its value, at each minute. There is an [`Event`] after each minute
//! such that, of the values at it and at the next minute, exactly one is above zero. The plain list
//! of the events in a span of time (`plain_list` in `specs/Track.antt`) is found by looking at each
//! minute of the span; a faster search must return the same list. A [`Curve`] is a track with
//! bounds on how fast its value changes.
#![tactic(auto)]

mod approximate;
mod cell;
mod cell_laws;
mod cells;
mod curve;
mod event;
mod events;
mod kind;
mod laws;
mod passing;
mod point;
mod quiet;
pub mod samples;
mod tracks;
mod verdict;
mod worked;
mod worked_cells;

pub use approximate::{is_quiet_from_approximate, unit_cell_from_approximate};
pub use cell::Cell;
pub use cell_laws::{
    accepted_cells_are_exact, answers_are_those_of_more_minutes, cells_are_halved,
    covers_are_accepted, quiet_cells_have_no_event, spans_are_cut_into_blocks,
};
pub use cells::Cells;
pub use curve::Curve;
pub use event::Event;
pub use events::Events;
pub use kind::Kind;
pub use laws::{
    events_pass_zero, plain_list_of_one_minute, plain_list_of_quiet_minutes,
    plain_list_of_two_spans,
};
pub use passing::kind_after;
pub use point::{Point, approximate_point_at, point_at};
pub use quiet::{MOST_MINUTES, is_quiet, most_change};
pub use tracks::Tracks;
pub use verdict::Verdict;
pub use worked::sample_events;
pub use worked_cells::{worked_covers, worked_limits, worked_quiet_cells, worked_verdicts};
