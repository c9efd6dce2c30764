//! Requests and their answers.
//!
//! [`answer`] answers a [`Question`](question::Question) with harmonic constants and a table of offsets:
//! it returns a text, or the first [`Refusal`] in a fixed order. [`answer_alone`] answers a question
//! that names no file, and [`station_events`] returns the events for a report. For the commands
//! `predict` and `certify` [`find_answer`] finds the station, and [`EventsAnswer::source`] decides
//! whether the answer is written while it is computed, without allocating; so do [`prepare`] and
//! [`answer_into`].
//! [`load_book`] of `named_files` is published here too. The crates above read the files and the
//! arguments and write the text.
#![tactic(auto)]

mod about;
mod alone;
mod calendar;
mod certificate_rejection;
mod certificate_sending;
mod certify;
mod check;
mod clock;
mod commands;
mod events_answer;
mod form;
mod heights;
mod highest;
mod inputs;
mod laws;
mod listed;
mod listing_sending;
mod name_sending;
mod peak_check;
mod peak_laws;
mod predict;
mod ready;
mod requests;
mod sample;
mod streaming;
mod tally;
mod text;
mod tracks;
mod trial;

pub use alone::answer_alone;
pub use commands::{answer, answer_valid};
pub use events_answer::{EventsAnswer, Source, find_answer};
pub use heights::sample_row_counts;
pub use inputs::{Given, GivenView};
pub use laws::{accepted_is_short, accepted_is_true, certified_is_accepted, certified_is_short};
pub use listed::{Listed, list_question, station_events};
pub use named_files::load_book;
pub use peak_laws::{
    accepted_peak_is_short, accepted_peak_is_true, highest_is_reported, peak_certified_is_accepted,
    peak_certified_is_short,
};
pub use ready::{Ready, answer_into, can_stream, prepare};
pub use station_span::{Purpose, Rejection, SpanRequest, StationData};
pub use streaming::Stream;
pub use text::Answer;
pub use tide_fault::{Fault, Refusal, Slot, Status, fault_line, fault_status};
