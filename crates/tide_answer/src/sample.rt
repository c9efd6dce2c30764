//! The answer of the command `sample`: a harmonics file made from a seed.

ghost use Rattle.std.specs.Prelude.{◌≡◌, IfOk};
ghost use Rattle.sample_tides.specs.File.{sample_of};
ghost use Rattle.tide_answer.specs.Answers.{text_alone};

use crate::text::{Answer, text_alone};
use sample_tides::sample;
use std::alloc::{AllocError, Global};

/// Returns the answer of the command `sample`: a harmonics file with made-up constants, determined
/// by `seed`.
///
/// # Errors
/// [`AllocError`] if memory runs out.
pub fn sample_answer(alloc: Global, seed: u64) -> Result<Answer, AllocError>
    ensures { IfOk result (λ answer. answer ≡ text_alone (sample_of seed)) }
{
    Ok(text_alone(sample(alloc, seed)?))
}
