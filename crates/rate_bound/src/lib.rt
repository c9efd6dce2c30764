//! The curves of a station, with bounds on how fast they change.
//!
//! A [`TurnCurve`] is a station's slope, whose changes of sign are high and low waters, and a
//! [`MarkCurve`] is its level less a mark. Each is a [`Curve`](curve_law::Curve) over the station's
//! minutes: it has a rate for a cell outside new-year blends, and in the second [`Version`] across a new
//! year too. Its approximate values are the station's.
#![tactic(auto)]

mod laws;
mod mark;
mod marking;
mod rates;
mod stretching;
mod turn;
mod version;
mod worked;

pub use laws::{curves_are_lawful, values_are_small};
pub use mark::MarkCurve;
pub use turn::TurnCurve;
pub use version::Version;
pub use worked::{worked_marks, worked_rates, worked_turns};
