//! Tests of the crates of curves: of levels and rates, of cells and verdicts, and of events and highest
//! waters.
//!
//! They use only the public items of these crates. They are in a separate crate because a crate with
//! tests is proved twice: with and without them.
#![tactic(auto)]

#[cfg(test)]
mod asserts;
#[cfg(test)]
mod checks;
#[cfg(test)]
mod curves;
#[cfg(test)]
mod evaluating;
#[cfg(test)]
mod events;
#[cfg(test)]
mod examples;
#[cfg(test)]
mod faults;
#[cfg(test)]
mod highest;
#[cfg(test)]
mod hills;
#[cfg(test)]
mod rates;
#[cfg(test)]
mod searches;
#[cfg(test)]
mod sines;
#[cfg(test)]
mod sizes;
#[cfg(test)]
mod slope_bounds;
#[cfg(test)]
mod stations;
#[cfg(test)]
mod years;
