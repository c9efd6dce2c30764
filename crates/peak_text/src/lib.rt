//! The text of a certificate of a highest water, read and written.
//!
//! A [`PeakCertificate`] names a station and a span of minutes, and has the highest water in the
//! span with the cells (consecutive minutes) that show it. [`write_peak`] returns the only text of
//! a certificate. [`read_peak`] returns the certificate of a text, or the first line such that no
//! certificate begins with the lines up to it. [`verdict_line`] returns the line that reports the
//! result of checking a certificate. `specs/PeakSpelling.antt` is the grammar.
#![tactic(auto)]

mod certificate;
mod fault;
mod line_reading;
mod reading;
mod text_laws;
mod verdict_text;
mod worked_texts;
mod writing;

pub use certificate::PeakCertificate;
pub use fault::PeakFault;
pub use reading::read_peak;
pub use text_laws::{
    peak_certificates_have_one_text, peak_readings_go_by_the_grammar, peak_texts_are_short,
};
pub use verdict_text::verdict_line;
pub use worked_texts::{worked_peak_readings, worked_peak_texts};
pub use writing::write_peak;
