//! Answers.

ghost use Rattle.std.specs.Prelude.{◌≡◌, IfOk, codes};
ghost use Rattle.tide_answer.specs.Answers.{text_alone, text_rejected};

use decimal_text::Bytes;
use std::alloc::{AllocError, Global};

/// The answer to a request: its text, whether it rejects a certificate, and the number of cells
/// (stretches of minutes with at most one event) of the search for its events.
#[derive(Drop)]
pub struct Answer {
    pub text: Bytes,
    /// True if the answer is about a certificate that was checked and isn't valid. The text then reports
    /// its first fault.
    pub rejected: bool,
    /// The number of cells (stretches of minutes with at most one event) of the search for events, for
    /// the commands `predict`, `calendar`, `certify` and `clock`; 0 for all other commands.
    pub cells: u64,
}

/// Returns the answer with this text, 0 cells and no rejection.
pub fn text_alone(text: Bytes) -> Answer
    ensures { result ≡ text_alone text }
{
    Answer {
        text,
        rejected: false,
        cells: 0,
    }
}

/// Returns the line `Accepted`, which begins the answer to the check of a valid certificate.
///
/// # Errors
/// [`AllocError`] if memory runs out.
pub fn accepted_line(alloc: Global) -> Result<Vec<u8>, AllocError>
    ensures { IfOk result (λ text. text.items ≡ codes "Accepted\n") }
{
    Vec::from_slice(alloc, b"Accepted\n")
}

/// Returns the answer that rejects a certificate: `line`, which reports the first fault, and 0 cells.
pub fn rejected(line: Bytes) -> Answer
    ensures { result ≡ text_rejected line }
{
    Answer {
        text: line,
        rejected: true,
        cells: 0,
    }
}
