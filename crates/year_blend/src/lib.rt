//! The years of a harmonics file, and the blend from one year's constants to the next year's.
//!
//! Harmonic constants hold for one calendar year. In the blend at a new year, less than an hour from
//! it, the constants of both years count: a [`weight`] moves smoothly from the earlier year to the
//! later one. [`place`] returns the year or the blend of a minute, [`stretch`] the year or the two
//! years of consecutive minutes, [`plain_end`] a year's last minute before the next blend, and
//! [`year_start`] the first minute of a year.
#![tactic(auto)]

mod finding;
mod laws;
mod parts;
mod spanning;
mod weights;
mod years;

pub use finding::{place, plain_end};
pub use laws::{
    plain_parts, sample_weights, unique_places, unique_stretches, weight_steps, worked_limits,
    worked_places, worked_stretches, year_lengths,
};
pub use parts::{Place, Stretch};
pub use spanning::{LONGEST_SPAN, stretch};
pub use weights::{TOTAL_WEIGHT, weight, weight_slope};
pub use years::year_start;
