//! A list that exists only in contracts and proofs, such as the bytes that a file reader was given.
//!
//! At run time a [`Log`] has no content: it takes no memory, and appending to it copies nothing.
#![tactic(auto)]

mod log;

pub use log::Log;
