//! The reader of harmonics files: text files of harmonic constants in the format of XTide's tools.
//!
//! [`read_book`] reads a [`Book`] from the bytes of a whole file, and a [`BookReader`] from slices
//! of it, one after the other. A file that breaks a rule of the format gives a [`BookFault`], with
//! the number of the line and the reason. The types of a book are defined in the crate
//! `harmonics_book`.
#![tactic(auto)]

mod absent;
mod book_parser;
mod book_reader;
mod column;
mod fault;
mod heading;
mod laws;
mod lines;
mod local_time;
mod names;
mod numbers;
mod pending;
mod plain;
mod progress;
mod reading;
mod record;
mod scale;
mod station_lines;
mod table;

pub use book_reader::BookReader;
pub use fault::{BookFault, Why};
pub use harmonics_book::{Book, Constituent, Constituents, Station, Stations, Units, ValidBook};
pub use laws::{first_faults, worked_files, worked_lines, worked_pieces};
pub use reading::read_book;
