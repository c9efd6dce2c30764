//! The content of a harmonics file: a text file of harmonic constants in the format of XTide's
//! tools.
//!
//! A [`Book`] has the constituents with their speeds, the equilibrium arguments and node factors of
//! each year, and the stations with their amplitudes and epochs. A [`ValidBook`] is a borrowed book
//! whose numbers and names are proved to be in the ranges of a file. The crate `harmonics_text`
//! reads a book from the bytes of a file.
#![tactic(auto)]

mod book;
mod lists;
mod valid_book;

pub use book::{Book, Constituent, Station, Units};
pub use lists::{Constituents, Stations};
pub use valid_book::ValidBook;
