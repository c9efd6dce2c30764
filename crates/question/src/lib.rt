//! Questions: what the arguments of a command line, or the path and the pairs of a web query, ask
//! for.
//!
//! [`pairs_of_words`] splits arguments at their first `=`, and [`read_question`] makes a
//! [`Question`] of such pairs, or returns their first fault. The table of keys for command lines
//! and queries is in `specs/Keys.antt`, and the properties of each question that was read are in
//! `specs/Asked.antt`. A [`ValidQuestion`] has a span, a mark and a step that are proved to be in
//! their ranges.
#![tactic(auto)]

mod asked;
mod command;
mod fault;
mod key;
mod key_texts;
mod layout;
mod origin;
mod pairs;
mod question;
mod reading;
mod sheets;
mod valid_question;
mod values;
mod words;
mod worked;
mod zone_word;

pub use command::Command;
pub use fault::AskFault;
pub use key::Key;
pub use layout::Layout;
pub use origin::Origin;
pub use pairs::{Item, Items, Pairs};
pub use question::{Question, ZoneWord};
pub use reading::{read_items, read_question};
pub use valid_question::ValidQuestion;
pub use words::{asks_to_serve, pairs_of_words};
pub use worked::{
    worked_faults, worked_query_faults, worked_questions, worked_values, worked_words,
};
