//! Runs: arguments, files, a clock and the sheets of a report in, text and an exit status out.
//!
//! [`run`] does all that the program does except serving. It reads the arguments and the files that they
//! name, and writes either the whole answer to `out` or one line to `err`. It uses files, clock and
//! outputs only through the objects that are passed to it.
#![tactic(auto)]

mod answering;
mod asking;
mod body;
mod certificate_laws;
mod completeness;
mod desk;
mod laws;
mod passed_on;
mod peak_laws;
mod reply;
mod replying;
mod reporting;
mod worked;

pub use certificate_laws::{what_certify_answers_is_accepted, what_check_accepts_is_true};
pub use completeness::{
    runs_are_complete, runs_end_by_their_answers, valid_certificates_are_accepted,
    valid_peaks_are_accepted,
};
pub use desk::run;
pub use laws::memory_holds_the_answer;
pub use passed_on::{what_peak_certified_is_checked, what_was_certified_is_checked};
pub use peak_laws::{what_peak_answers_is_accepted, what_peakcheck_accepts_is_true};
pub use worked::{worked_minutes, worked_runs, worked_sheets};
