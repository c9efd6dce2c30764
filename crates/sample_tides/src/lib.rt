//! A harmonics file of made-up constants, for tests and measurements of a predictor.
//!
//! [`sample`] returns the same file for the same seed. The constants of its stations, which don't
//! exist, are drawn from a generator of pseudorandom numbers. `specs/File.antt` defines the file
//! line by line.
//!
//! The tests of several crates share a shorter file, [`PIER`], the listing [`DAY`] and [`words_of`].
#![tactic(auto)]

mod constituents;
mod file;
mod generator;
mod quantity;
mod sample_writer;
mod stations;
mod tables;
mod texts;
mod worked;

pub use file::sample;
pub use texts::{DAY, PIER, words_of};
pub use worked::{worked_draws, worked_lines};
