//! The text of a certificate of events, read and written.
//!
//! A [`Certificate`] names a station, a span of minutes and a mark (a level at which crossings are
//! listed), and for each requested track it divides the span into cells (claims about consecutive
//! minutes). Its text is lines of words and whole numbers, which any program can write.
//! [`write_certificate`] returns the only text of a certificate. [`read_certificate`] returns the
//! certificate of a text, or the first line such that no certificate begins with the lines up to
//! it. `specs/Spelling.antt` is the grammar.
#![tactic(auto)]

mod cell_reading;
mod certificate;
mod fault;
mod laws;
mod line_cursor;
mod line_reading;
mod line_writing;
mod lines;
mod numbers;
mod parts;
mod reading;
mod track_name;
mod words;
mod worked;
mod writing;

pub use certificate::Certificate;
pub use fault::CertFault;
pub use laws::{
    certificates_are_short, certificates_have_one_text, readings_go_by_the_grammar,
    texts_come_in_parts,
};
pub use line_cursor::{ItemForm, LineCursor};
pub use line_writing::{
    begin_line, cell_line, end_line, heading_line, last_line, mark_line, push_cell_line, title_line,
};
pub use lines::after;
pub use numbers::{parse_number, size_of};
pub use parts::{items, moment, station, word};
pub use reading::{read_certificate, read_last};
pub use track_name::TrackName;
pub use words::track_of;
pub use worked::{worked_readings, worked_texts};
pub use writing::{push_station_lines, push_text, write_certificate};
