//! The check of a track's cells (consecutive minutes, and which event is after them), however they
//! were made.
//!
//! [`check_track`] depends on a curve and cells only, not on tides or on how a search cuts a span.
//! It evaluates the curve at most once per cell, plus once, and doesn't allocate.
#![tactic(auto)]

mod checking;
mod covering;
mod finding;

pub use checking::check_track;
