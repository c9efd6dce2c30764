//! The data that a server serves, read from files.

ghost use Rattle.std.specs.Prelude.{◌≡◌, false, IsOk};
ghost use Rattle.decimal_text.specs.Expected.{EqualsUnlessNoMemory};
ghost use Rattle.question.specs.Questions.{is_out_of_memory as ask_is_out_of_memory};
ghost use Rattle.tide_fault.specs.Faults.{is_out_of_memory};
ghost use Rattle.tide_edge.specs.Whole.{ReadWithin};
ghost use Rattle.named_files.specs.RunFaults.{reading_failed};
ghost use Rattle.named_files.specs.Opened.{AreShownFor, IsResultOf};
ghost use Rattle.tide_server.specs.Openings.{asks_another, files_asked, service_in, service_of, served_data_from};
ghost use Rattle.tide_server.specs.Shown.{ReadsServedData, names_served};

use crate::served_data::{ServedData, ValidServedData};
use decimal_text::{Text, Words};
use named_files::{RunFault, read_book, read_table};
use question::{AskFault, Key, Question, asks_to_serve, pairs_of_words, read_question};
use std::alloc::Global;
use tide_edge::Files;
use tide_fault::Fault;

/// Reads the data that the arguments `words` name, with the command `serve`: the harmonic constants, and
/// then the table of subordinate stations. Each file is read and its contents checked before the next is
/// opened.
///
/// # Errors
/// The first reason in this order: the arguments, the harmonic constants, the table.
pub(crate) fn read_served_data<F: Files>(
    alloc: Global,
    words: &Words,
    files: &mut F,
) -> Result<ValidServedData, RunFault>
    requires { asks_another words.now ≡ false }
    ensures shown { IsResultOf (names_served (service_of words.now)) (AreShownFor (service_of words.now))
        (λ folders. served_data_from folders words.now) (F.state files.old).open_log (F.state files.new).open_log result }
    ensures read { ReadWithin (files_asked (service_of words.now)) (reading_failed result) (F.state files.old) (F.state files.new) }
    ensures unopened { ¬ (IsOk (service_of words.now)) → files.new ≡ files.old }
{
    let question = read_service(alloc, words)?;
    match &question.file {
        Some(name) => {
            let read = read_named(alloc, files, &question, name);
            drop(question);
            read
        }
        None => {
            drop(question);
            Err(RunFault::Faulty(Fault::Ask(AskFault::MissingKey(Key::File))))
        }
    }
}

/// Reads the data of a request; its harmonics file is `name`.
fn read_named<F: Files>(
    alloc: Global,
    files: &mut F,
    question: &Question,
    name: &Text,
) -> Result<ValidServedData, RunFault>
    ensures { ReadsServedData question.now name.now (F.state files.old) (F.state files.new) result }
{
    let book = read_book(alloc, files, name)?;
    match read_table(alloc, files, &question.offsets) {
        Ok(table) => Ok(ValidServedData::new(ServedData {
            book,
            table,
            port: question.port,
        })),
        Err(none) => {
            drop(book);
            Err(none)
        }
    }
}

/// Returns the request to serve in the arguments `words`.
#[tactic(auto, unfolding(crate::specs::Openings::service_of))]
fn read_service(alloc: Global, words: &Words) -> Result<Question, Fault>
    requires { asks_another words.now ≡ false }
    ensures { EqualsUnlessNoMemory is_out_of_memory (service_of words.now) result }
{
    let question = service_in_words(alloc, words)?;
    Ok(question)
}

/// Returns the request to serve in the arguments `words`, or the fault of the arguments.
fn service_in_words(alloc: Global, words: &Words) -> Result<Question, AskFault>
    requires { asks_another words.now ≡ false }
    ensures { EqualsUnlessNoMemory ask_is_out_of_memory (service_in words.now) result }
{
    let pairs = pairs_of_words(alloc, words)?;
    read_question(alloc, &pairs)
}

/// Returns true if the command of `words` isn't `serve`. It doesn't allocate.
pub(crate) fn names_another(words: &Words) -> bool
    ensures { result ≡ asks_another words.now }
{
    match words.as_slice().first() {
        Some(_) => !asks_to_serve(words),
        None => false,
    }
}
