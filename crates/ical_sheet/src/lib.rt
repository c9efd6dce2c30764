//! The events of a station as a calendar for other programs (RFC 5545).
//!
//! [`IcalSheet`] is the sheet that writes it. A calendar consists of content lines: [`fold`] splits a
//! content line into physical lines of at most 75 octets, [`unfold`] joins the lines of a text again,
//! and [`escape`] marks the characters of a text that have a special meaning. `specs/` has the rules.
#![tactic(auto)]

mod calendar;
mod escaping;
mod event_lines;
mod folding;
mod laws;
mod shared;
mod sheet;
mod stamp;
mod unfolding;
mod worked;

pub use escaping::escape;
pub use folding::fold;
pub use laws::{
    calendars_are_sheets, calendars_unfold, folded_lines_unfold, identifiers_are_unique,
    lines_are_cut_between_characters,
};
pub use sheet::{IcalPage, IcalSheet};
pub use unfolding::unfold;
pub use worked::{worked_calendars, worked_escapes, worked_folds, worked_stamps, worked_unfolds};
