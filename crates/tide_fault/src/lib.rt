//! Refusals and faults, with their lines and exit statuses.
//!
//! A [`Refusal`] is a reason why a request has no answer with the files that were read. A [`Fault`]
//! is a refusal, or an error of the command line or of a file. [`fault_line`] returns the line that
//! reports a fault, and [`fault_status`] the exit status of the program.
#![tactic(auto)]

mod fault;
mod lines;
mod refusal;
mod slot;
mod status;
mod worked;

pub use fault::{Fault, fault_status};
pub use lines::fault_line;
pub use refusal::Refusal;
pub use slot::Slot;
pub use status::Status;
pub use worked::worked_lines;
