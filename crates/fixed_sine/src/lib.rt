//! Sine and cosine in whole numbers, the same on every machine.
//!
//! An angle is a whole number of units of 1/600,000,000 degree, on a circle of [`CIRCLE`] units;
//! [`reduce`] reduces any angle to one circle. [`isin`] and [`icos`] return sine and cosine in
//! billionths, from a table of whole degrees with interpolation by second differences. [`step`] bounds
//! the change of the sine.
//!
//! [`binary_angle_sine`] returns the same sine faster. Its angle is in 2^-64 of a turn
//! ([`binary_angle_of`] converts), so that sums and products of angles drop full circles without a
//! division. The cosine is the sine of the angle plus [`QUARTER_CIRCLE`]. [`approximate_sine`] is
//! faster still: it returns the sine in the middle of the angle's part of the circle, one of 8,192
//! equal parts, within [`APPROXIMATE_ERROR`].
#![tactic(auto)]

mod approximate;
mod binary_angle;
mod circle;
mod degrees;
mod laws;
mod part_sines;
mod rate;
mod sine;
mod table;

pub use approximate::{APPROXIMATE_ERROR, approximate_sine};
pub use binary_angle::{QUARTER_CIRCLE, binary_angle_of, binary_angle_sine};
pub use circle::{CIRCLE, DEGREE, RADIAN, reduce};
pub use laws::{
    sample_sines, sine_rates, sine_sizes, sines_are_approximate, table_checks, worked_parts,
};
pub use rate::step;
pub use sine::{icos, isin};
