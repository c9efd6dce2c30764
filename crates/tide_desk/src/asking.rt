//! The request of a command line.

ghost use Rattle.std.specs.Prelude.{◌<◌, [], Some, length, map, unwrap_or, IfOk};
ghost use Rattle.decimal_text.specs.Expected.{Excused, EqualsUnlessNoMemory};
ghost use Rattle.question.specs.Asked.{IsAsked};
ghost use Rattle.question.specs.Questions.{is_out_of_memory as ask_is_out_of_memory};
ghost use Rattle.report_sheets.specs.Pages.{missing_of};
ghost use Rattle.tide_fault.specs.Faults.{is_out_of_memory};
ghost use Rattle.tide_desk.specs.Answers.{question_of_words, found_in, question_in};

use decimal_text::Words;
use question::{AskFault, Question, asks_to_serve, pairs_of_words, read_question};
use report_sheets::{Sheet, missing};
use std::alloc::Global;
use tide_fault::{Fault, Refusal};

/// Returns the request that the arguments `words` make, if each sheet that they name is one of `sheets`.
///
/// # Errors
/// [`Fault::Ask`] if `words` isn't a request; [`Fault::NoSheet`], with the first named sheet that isn't
/// one of `sheets`.
#[tactic(auto, unfolding(crate::specs::Answers::question_of_words))]
pub fn read_words(
    alloc: Global,
    words: &Words,
    sheets: &Vec<Box<dyn Sheet>>,
) -> Result<Question, Fault>
    ensures exact { EqualsUnlessNoMemory is_out_of_memory (question_of_words (map sheet_spec sheets.now.items) words.now) result }
    ensures asked { IfOk result IsAsked }
{
    let question = question_in_words(alloc, words)?;
    check_found(&question.sheets, sheets).and(Ok(question))
}

/// Returns the request of the arguments `words`; their command isn't `serve`.
fn question_in_words(alloc: Global, words: &Words) -> Result<Question, AskFault>
    ensures exact { EqualsUnlessNoMemory ask_is_out_of_memory (question_in words.now) result }
    ensures asked { IfOk result IsAsked }
{
    if asks_to_serve(words) {
        return Err(AskFault::UnknownCommand);
    }
    let pairs = pairs_of_words(alloc, words)?;
    read_question(alloc, &pairs)
}

/// Returns `Ok` if each word in `wanted` is the word of one of `sheets`.
fn check_found(wanted: &Option<Words>, sheets: &Vec<Box<dyn Sheet>>) -> Result<(), Fault>
    ensures { let wanted = unwrap_or wanted.now [] in
        EqualsUnlessNoMemory is_out_of_memory (found_in wanted (missing_of (map sheet_spec sheets.now.items) wanted)) result }
{
    match wanted {
        Some(wanted) => match missing(sheets, wanted) {
            Some(place) => Err(unknown(wanted, place as usize)),
            None => Ok(()),
        },
        None => Ok(()),
    }
}

/// Returns the fault of the word at index `place` of `wanted`; no sheet has this word.
fn unknown(wanted: &Words, place: usize) -> Fault
    requires { place < length wanted.now }
    ensures { Excused (is_out_of_memory result) (found_in wanted.now (Some place)) result }
{
    match wanted.as_slice()[place].copy() {
        Ok(word) => Fault::NoSheet { word },
        Err(_) => Fault::Refused(Refusal::NoMemory),
    }
}
