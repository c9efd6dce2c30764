//! Laws of listings and calendars: what a reader of the text relies on.
//!
//! Each printed text is proved equal to a definition of `listing` or `calendar_sheet`. The laws are
//! over these definitions: which events and levels a text has, on which lines, and what a
//! reader of comma-separated values finds. A law is an empty function, and its clauses state the
//! law.
#![tactic(auto)]

mod heights;
mod labels;
mod lines;
mod pages;
mod rows;
mod stations;

pub use heights::{heights_are_levels, worked_heights};
pub use labels::{minute_of_local, worked_labels, zones_only_label};
pub use lines::lines_end_once;
pub use pages::{
    calendar_shows_each_event_once, dates_that_go_back_change_the_order,
    fixed_clocks_keep_the_order, worked_dates, worked_dates_that_go_back,
};
pub use rows::{csv_and_plain_show_one_list, records_read_back, worked_records};
pub use stations::{stations_list_what_can_be_requested, worked_missing_reference};
