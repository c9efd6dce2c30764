//! Tests of answers to requests: answers, refusals and certificates, and files of constants that are
//! loaded in pieces.
//!
//! They use only the public items of the crates below. They are in a separate crate because a crate with
//! tests is proved twice: with and without them.
#![tactic(auto)]

#[cfg(test)]
mod answering;
#[cfg(test)]
mod asserts;
#[cfg(test)]
mod examples;
#[cfg(test)]
mod loading;
