//! Tests of requests over HTTP, their replies, and the server.
//!
//! They use only the public items of the crates below. They are in a separate crate because a crate with
//! tests is proved twice: with and without them.
#![tactic(auto)]

#[cfg(test)]
mod asserts;
#[cfg(test)]
mod examples;
#[cfg(test)]
mod server;
