//! The printed text of an event: its name, its level and its line.
//!
//! [`word`] returns the name of an event in tide tables, [`unit_text`] the name of a unit, and
//! [`write_level`] writes a level in hundredths. [`event_line`] writes the line of an event, with
//! its local time, level, unit and name, and [`height_line`] the line of a level without an event.
//! No function here allocates. `specs/` has the names and the layout.
#![tactic(auto)]

mod event_word;
mod level;
mod lines;
mod naming;
mod unit;
mod worked;
mod worked_names;

pub use event_word::EventWord;
pub use level::write_level;
pub use lines::{event_line, height_line};
pub use naming::word;
pub use unit::unit_text;
pub use worked::{worked_levels, worked_lines};
pub use worked_names::worked_words;
