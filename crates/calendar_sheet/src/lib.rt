//! The calendar of a station's events, with a line for each local date.
//!
//! [`calendar_text`] lists the events of a span below the station's name, each on the line of its
//! date in the zone's local time. A date without an event has a line too. `specs/Calendars.antt`
//! has the layout.
#![tactic(auto)]

mod calendar;
mod calendar_page;
mod days;
mod pages;
mod worked;

pub use calendar::calendar_text;
pub use worked::worked_calendars;
