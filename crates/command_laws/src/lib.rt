//! Laws of commands: what a user relies on in what a command prints.
//!
//! The text of each command is proved equal to a definition, and the answer of a run to `answer_of`
//! of `tide_desk`. The laws relate these definitions for two requests, or for the arguments and
//! files of runs. A law is an empty function, and its clauses state the law. Nothing depends on
//! this crate.
#![tactic(auto)]

mod abouts;
mod checks;
mod clock;
mod heights;
mod peaks;
mod reports;
mod subordinates;

pub use abouts::{about_bounds_the_printed_turns, worked_turns};
pub use checks::{check_shows_predict, worked_checks};
pub use clock::{clock_shows_the_present_and_the_next_day, worked_clock};
pub use heights::{heights_has_a_row_each_step, sample_heights};
pub use peaks::{no_event_is_above_the_highest_water, worked_highest};
pub use reports::{reports_are_complete, worked_reports};
pub use subordinates::{subordinates_list_in_two_steps, worked_own_slack, worked_steps};
