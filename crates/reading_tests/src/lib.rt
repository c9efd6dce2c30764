//! Tests of the crates that read and write: files of harmonic constants and of offsets, zones and
//! moments, requests, certificates, and the objects of the machine.
//!
//! They use only the public items of these crates. They are in a separate crate because a crate with
//! tests is proved twice: with and without them.
#![tactic(auto)]

#[cfg(test)]
mod asserts;
#[cfg(test)]
mod certificates;
#[cfg(test)]
mod decimals;
#[cfg(test)]
mod doors;
#[cfg(test)]
mod edge;
#[cfg(test)]
mod examples;
#[cfg(test)]
mod faults;
#[cfg(test)]
mod harmonics;
#[cfg(test)]
mod offsets;
#[cfg(test)]
mod peak_texts;
#[cfg(test)]
mod question_values;
#[cfg(test)]
mod questions;
#[cfg(test)]
mod samples;
#[cfg(test)]
mod zones;
