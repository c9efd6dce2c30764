//! The slope error bound of a station: how far its slope is from the steps of its level.
//!
//! Level and slope are sums of cosines and sines in whole numbers, so the slope isn't exactly the rise
//! of the level in a minute. [`unit_gap`] bounds the difference for one wave, from only its speed, and
//! [`agreement`] for a station, over all its years.
#![tactic(auto)]

mod laws;
mod station_gaps;
mod unit_gaps;
mod worked;

pub use laws::{predicted_agreements, table_checks};
pub use station_gaps::agreement;
pub use unit_gaps::unit_gap;
pub use worked::{worked_agreements, worked_gaps, worked_unit_gaps};
