//! Listings of events, levels and stations, as lines or as comma-separated values.
//!
//! A line of a listing has the local time with its label, the level in hundredths of the unit, the unit
//! and the event's name: [`event_line`].
//!
//! - [`plain_events`] returns such lines below the station's name, and [`csv_events`] the same events as
//!   records; [`plain_heights`] and [`csv_heights`] do so for levels. [`events_text`] and
//!   [`heights_text`] choose between them by the layout.
//! - [`clock_text`] returns the present level and the next events, and [`highest_text`] the highest
//!   level of a span.
//! - [`stations_text`] lists the stations of a harmonics file and of a table, and [`about_text`] the
//!   facts of one station.
//!
//! `specs/` has the layouts.
#![tactic(auto)]

mod about;
mod by_layout;
mod clock;
mod highest;
mod plain;
mod records;
mod row;
mod rows;
mod stations;
mod worked;

pub use about::about_text;
pub use by_layout::{events_text, heights_text};
pub use clock::clock_text;
pub use event_text::{event_line, height_line};
pub use highest::highest_text;
pub use plain::{plain_events, plain_heights, push_plain_events};
pub use records::{csv_events, csv_heights};
pub use row::Row;
pub use rows::Rows;
pub use stations::stations_text;
pub use worked::{worked_listings, worked_records, worked_stations};
