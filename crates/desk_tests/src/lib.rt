//! Tests of whole runs, over files, a clock and sinks in memory.
//!
//! They use only the public items of the crates below. They are in a separate crate because a crate with
//! tests is proved twice: with and without them.
#![tactic(auto)]

#[cfg(test)]
mod asserts;
#[cfg(test)]
mod desk;
#[cfg(test)]
mod examples;
#[cfg(test)]
mod stamp;
