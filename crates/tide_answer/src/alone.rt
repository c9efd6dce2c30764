//! The answer to a request that names no file.

ghost use Rattle.std.specs.Prelude.{Some};
ghost use Rattle.decimal_text.specs.Expected.{EqualsUnlessNoMemory};
ghost use Rattle.question.specs.declared.command.Command.{Command};
ghost use Rattle.tide_answer.specs.Answers.{answered_without_files, text_from};
ghost use Rattle.tide_fault.specs.Faults.{refusal_is_out_of_memory};

use crate::requests::refusal_of_incomplete;
use crate::sample::sample_answer;
use crate::text::{Answer, text_alone};
use crate::trial::try_sample;
use question::{Command, ValidQuestion};
use std::alloc::Global;
use tide_fault::Refusal;

/// Returns the answer to `question` if its command reads no file: `sample` or `trial`, each with a seed.
///
/// # Errors
/// [`Refusal::NoStation`] if the command is another one or the seed is missing; [`Refusal::BadSample`]
/// or the refusal at a station if the trial fails. If memory runs out, [`Refusal::NoMemory`] is returned
/// in place of any other result.
#[tactic(auto, unfolding(crate::specs::Answers::answered_without_files))]
pub fn answer_alone(alloc: Global, question: &ValidQuestion<'_>) -> Result<Answer, Refusal>
    ensures { EqualsUnlessNoMemory refusal_is_out_of_memory (answered_without_files question.now) result }
{
    let question = question.get();
    match (question.command, question.seed) {
        (Command::Sample, Some(seed)) => Ok(sample_answer(alloc, seed)?),
        (Command::Trial, Some(seed)) => trial_answer(alloc, seed),
        _ => Err(refusal_of_incomplete()),
    }
}

/// Returns the lines of the trial of `seed`.
fn trial_answer(alloc: Global, seed: u64) -> Result<Answer, Refusal>
    ensures { EqualsUnlessNoMemory refusal_is_out_of_memory (text_from Command.Trial (Some seed)) result }
{
    Ok(text_alone(try_sample(alloc, seed)?))
}
