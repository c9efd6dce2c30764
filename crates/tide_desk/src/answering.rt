//! The answer to a command line, or the first reason why there is none.

ghost use Rattle.std.specs.Prelude.{◌≡◌, ℤ, false, IsTrue, Option, None, IsOk, IfOk, IfErr, OnErr, if◌then◌else◌, map};
ghost use Rattle.decimal_text.specs.Expected.{EqualsUnlessNoMemory};
ghost use Rattle.named_files.specs.RunFaults.{reading_failed, refused_over, faulty, is_out_of_memory};
ghost use Rattle.named_files.specs.Opened.{AreShown, AreShownFor, IsResultOf, failing_file, names_to};
ghost use Rattle.named_files.specs.Readings.{files_allowed, files_in};
ghost use Rattle.question.specs.Asked.{IsZoneWord};
ghost use Rattle.tide_answer.specs.Answers.{answered_without_files};
ghost use Rattle.tide_desk.specs.Answers.{
  ReadsClock,
  HasFiles,
  NamesFile,
  allowed_by,
  question_of_words,
  reads_clock,
  refused_from,
};
ghost use Rattle.tide_desk.specs.Outcomes.{WentOn, sources};
ghost use Rattle.tide_desk.specs.Shown.{Agrees, IsReadLast, answer_shown, minute_read, names_wanted, readings_between, shown_over};
ghost use Rattle.tide_desk.specs.Workings.Replies.{answer_by as answer_from};
ghost use Rattle.tide_desk.specs.Workings.Settled.{reading_of};
ghost use Rattle.tide_edge.specs.Clocks.{IsClockMinute, clock_after};

use crate::asking::read_words;
use crate::body::Body;
use crate::reply::Reply;
use crate::replying::body_with;
use decimal_text::{Text, Words};
use named_files::{Materials, RunFault, read_files};
use question::{Command, ValidQuestion};
use report_sheets::Sheet;
use std::alloc::Global;
use tide_answer::answer_alone;
use tide_edge::{Clock, Files};
use tide_fault::{Fault, Refusal};

/// Returns the answer to the arguments `words`, ready to be written. The files that the arguments name
/// are opened in this order: the harmonic constants, the table, the zone and the certificate. Then the
/// clock is read, but only for the commands `clock` and `report`. A report has pages of `sheets`.
///
/// # Errors
/// The first reason in this order why there is no answer: the arguments aren't a request; they name a
/// sheet that isn't one of `sheets`; a file can't be read or isn't in its format; the clock can't be
/// read; the request is refused ([`Refusal`]).
pub fn answer_words<F: Files, K: Clock>(
    alloc: Global,
    words: &Words,
    files: &mut F,
    clock: &mut K,
    sheets: Vec<Box<dyn Sheet>>,
) -> Result<Reply, RunFault>
    ensures shown { let sheet_specs = map sheet_spec sheets.items in let parsed_question = question_of_words sheet_specs words.now in
        (given : Option ℤ) → Agrees given (readings_between (K.state clock.old) (K.state clock.new)) →
        IsResultOf (names_wanted parsed_question) (AreShownFor parsed_question)
        (λ folders. answer_shown sheet_specs folders given words.now)
        (F.state files.old).open_log (F.state files.new).open_log result }
    ensures reads { let parsed_question = question_of_words (map sheet_spec sheets.items) words.now in
        WentOn (reading_failed result) (ReadsClock parsed_question) (allowed_by parsed_question)
        (sources (F.state files.old) (K.state clock.old)) (sources (F.state files.new) (K.state clock.new)) }
    ensures untouched { let parsed_question = question_of_words (map sheet_spec sheets.items) words.now in
        (¬ (NamesFile parsed_question) → files.new ≡ files.old) × (¬ (ReadsClock parsed_question) → clock.new ≡ clock.old) }
    ensures last { let parsed_question = question_of_words (map sheet_spec sheets.items) words.now in
        IsReadLast (ReadsClock parsed_question) (clock.new ≡ clock.old) (AreShownFor parsed_question) (λ folders. HasFiles folders parsed_question)
        (sources (F.state files.old) (K.state clock.old)) (sources (F.state files.new) (K.state clock.new)) result }
{
    let question = read_words(alloc, words, &sheets)?;
    let valid = ValidQuestion::new(&question);
    match &question.file {
        Some(name) => {
            let answered = answer_over(alloc, &valid, name, files, clock, sheets);
            drop(question);
            answered
        }
        None => {
            let answered = answer_without(alloc, &valid);
            drop(question);
            answered
        }
    }
}

/// Returns the answer to a request that names no file.
fn answer_without(alloc: Global, question: &ValidQuestion<'_>) -> Result<Reply, RunFault>
    ensures exact { EqualsUnlessNoMemory is_out_of_memory (faulty (refused_from (answered_without_files question.now))) result }
    ensures read { reading_failed result ≡ false }
{
    match answer_alone(alloc, question) {
        Ok(answer) => Ok(Reply::of(Body::Text(answer))),
        Err(refusal) => Err(RunFault::Faulty(Fault::Refused(refusal))),
    }
}

/// Returns the answer to a request with the harmonics file `name`. The clock is read after the files.
fn answer_over<F: Files, K: Clock>(
    alloc: Global,
    question: &ValidQuestion<'_>,
    name: &Text,
    files: &mut F,
    clock: &mut K,
    sheets: Vec<Box<dyn Sheet>>,
) -> Result<Reply, RunFault>
    requires zone { IsZoneWord question.now.zone }
    ensures shown { (given : Option ℤ) → Agrees given (readings_between (K.state clock.old) (K.state clock.new)) →
        IsResultOf (names_to name.now question.now) (AreShown question.now)
        (λ folders. shown_over (map sheet_spec sheets.items) folders given question.now name.now)
        (F.state files.old).open_log (F.state files.new).open_log result }
    ensures reads { WentOn (reading_failed result) (IsTrue (reads_clock question.now.command)) (files_allowed question.now)
        (sources (F.state files.old) (K.state clock.old)) (sources (F.state files.new) (K.state clock.new)) }
    ensures clock_unread { ¬ (IsTrue (reads_clock question.now.command)) → clock.new ≡ clock.old }
    ensures last { IsReadLast (IsTrue (reads_clock question.now.command)) (clock.new ≡ clock.old) (AreShown question.now)
        (λ folders. IsOk (files_in folders question.now name.now))
        (sources (F.state files.old) (K.state clock.old)) (sources (F.state files.new) (K.state clock.new)) result }
{
    let read = read_files(alloc, files, question, name)?;
    match read_minute(clock, question) {
        Ok(now) => {
            let replied = body_with(alloc, &read, question, now, sheets);
            refused_over(replied, read)
        }
        Err(none) => {
            drop(read);
            Err(none)
        }
    }
}

/// Returns the present minute if the command needs it, and 0 otherwise.
fn read_minute<K: Clock>(clock: &mut K, question: &ValidQuestion<'_>) -> Result<i64, RunFault>
    ensures given { (given : Option ℤ) → Agrees given (readings_between (K.state clock.old) (K.state clock.new))
        → EqualsUnlessNoMemory (λ none. false) (minute_read question.now.command given) result }
    ensures in_range { IfOk result IsClockMinute }
    ensures unread { IfErr result (λ none. none ≡ RunFault.Unread) }
    ensures asked { OnErr result (IsTrue (reads_clock question.now.command)) }
    ensures time { K.state clock.new ≡ (if reads_clock question.now.command
        then clock_after (reading_of result) (K.state clock.old) else K.state clock.old) }
    ensures clock_unread { ¬ (IsTrue (reads_clock question.now.command)) → clock.new ≡ clock.old }
{
    if !reads_clock(question.get().command) {
        return Ok(0);
    }
    match clock.minute() {
        Ok(minute) => Ok(minute),
        Err(_) => Err(RunFault::Unread),
    }
}

/// Returns true if `command` reads the clock.
fn reads_clock(command: Command) -> bool
    ensures { result ≡ reads_clock command }
{
    matches!(command, Command::Clock | Command::Report)
}

/// Returns the answer of `replied` to a command line; `read` has the table of offsets that was read.
fn refused_over(replied: Result<Body, Refusal>, read: Materials) -> Result<Reply, RunFault>
    ensures exact { result ≡ refused_over read.table (answer_from replied) }
    ensures read { reading_failed result ≡ false }
    ensures of_no_file { failing_file result ≡ None }
{
    let Materials { table, .. } = read;
    match replied {
        Ok(body) => Ok(Reply::of(body)),
        Err(refusal) => Err(RunFault::Refused(refusal, table)),
    }
}
