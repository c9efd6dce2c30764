//! The files of a request, and the line that reports why there is no answer.
//!
//! [`read_files`] reads the files of a request in this order: the harmonic constants, the table, the
//! zone and the certificate; each is opened at most once and read to its end, or up to 65,536 bytes past
//! its limit, and its contents are checked before the next is opened. [`load_book`] reads a file of
//! harmonic constants in pieces of at most 65,536 bytes, and parses each piece as soon as it is read.
//! [`RunFault`] is the reason why a command line has no answer, and [`report`] writes its line.
#![tactic(auto)]

mod loading;
mod materials;
mod reading;
mod reporting;
mod run_fault;
mod worked;

pub use loading::{LoadFault, load_book};
pub use materials::Materials;
pub use reading::{read_book, read_files, read_table};
pub use reporting::{print_line, refuse, report};
pub use run_fault::RunFault;
pub use worked::{worked_faults, worked_files};
