//! The predicted tide of a station: level and slope at each minute of a book's years.
//!
//! A [`StationCurve`] is made from a book and the index of one of its stations. It is the sum of waves of
//! Schureman's Special Publication 98, in whole numbers: one wave for each constituent, by the constants
//! of the year, and a smooth blend of both years at a new year. If a level or a slope needn't be exact,
//! an approximate one is faster, with a known bound on its error.
#![tactic(auto)]

mod approximate_law;
mod blend;
mod calendar;
mod changes;
mod constants;
mod curve;
mod fault;
mod greatest;
mod laws;
mod minute_range;
mod origin;
mod summing;
mod wave;
mod year_limits;
mod year_sums;
mod years;

pub use approximate_law::approximate_values;
pub use changes::{year_changes, year_sizes};
pub use curve::StationCurve;
pub use fault::CurveFault;
pub use laws::{
    worked_approximate_levels, worked_approximate_slopes, worked_constants, worked_errors,
    worked_levels, worked_limits, worked_reach, worked_slopes, worked_sums, worked_waves,
};
pub use year_sums::Sums;
