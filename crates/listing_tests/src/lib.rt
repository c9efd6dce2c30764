//! Tests of listings, calendars and sheets.
//!
//! They use only the public items of the crates below. They are in a separate crate because a crate with
//! tests is proved twice: with and without them.
#![tactic(auto)]

#[cfg(test)]
mod asserts;
#[cfg(test)]
mod calendars;
#[cfg(test)]
mod ical;
#[cfg(test)]
mod lists;
#[cfg(test)]
mod reports;
#[cfg(test)]
mod sheets;
#[cfg(test)]
mod station_lists;
