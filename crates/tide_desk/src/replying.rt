//! The source of the answer to a request with the files that were read.

ghost use Rattle.std.specs.Prelude.{◌≡◌, ◌&&◌, IfOk, map};
ghost use Rattle.decimal_text.specs.Expected.{EqualsUnlessNoMemory};
ghost use Rattle.named_files.specs.Workings.Materials.{AreMaterials};
ghost use Rattle.tide_answer.specs.Givens.{IsGiven, given_seen};
ghost use Rattle.tide_answer.specs.Streams.{can_stream, prepared};
ghost use Rattle.tide_desk.specs.Answers.{answered_over_book, given_with, is_report};
ghost use Rattle.tide_desk.specs.Workings.Replies.{answer_by, is_stream, is_streaming};
ghost use Rattle.tide_edge.specs.Clocks.{IsClockMinute};
ghost use Rattle.tide_fault.specs.Faults.{refusal_is_out_of_memory};

use crate::body::Body;
use crate::reporting::report;
use named_files::Materials;
use question::{Command, ValidQuestion};
use report_sheets::Sheet;
use std::alloc::Global;
use tide_answer::{GivenView, Source, StationData, answer_valid, can_stream, find_answer};
use tide_fault::Refusal;

/// Returns the answer to `question` with the contents `read` of the files, at the present minute `now`,
/// in the form in which it is kept until it is written: for the command `report` the pages of the
/// requested sheets, and for other commands the text of [`answer`](tide_answer::answer). An answer that
/// can be streamed is computed while it is written; any other is a text in memory.
///
/// # Errors
/// The first [`Refusal`], in the order of [`answer`](tide_answer::answer).
pub fn body_with(
    alloc: Global,
    read: &Materials,
    question: &ValidQuestion<'_>,
    now: i64,
    sheets: Vec<Box<dyn Sheet>>,
) -> Result<Body, Refusal>
    requires materials { AreMaterials read.now }
    requires now { IsClockMinute now }
    ensures exact { EqualsUnlessNoMemory refusal_is_out_of_memory (answered_over_book (is_report question.now.command)
        (map sheet_spec sheets.items) read.now.book read.now.table question.now (given_with read.now now)) (answer_by result) }
    ensures streams { IfOk result (λ body. is_stream body ≡ (can_stream question.now.command
        && is_streaming (prepared read.now.book read.now.table question.now (given_with read.now now)))) }
{
    let stations = StationData::new(&read.book, &read.table);
    let command = question.get().command;
    if is_report(command) {
        return Ok(Body::Text(report(alloc, &stations, question, now, sheets)?));
    }
    let inputs = inputs_of(read, now);
    if !can_stream(command) {
        return Ok(Body::Text(answer_valid(alloc, &stations, question, inputs)?));
    }
    match find_answer(alloc, &stations, question, inputs)?.source()? {
        Source::Stream(stream) => Ok(Body::Stream(stream)),
        Source::Whole(found) => Ok(Body::Text(found.answer(alloc)?)),
    }
}

/// Returns true if `command` is `report`.
fn is_report(command: Command) -> bool
    ensures { result ≡ is_report command }
{
    matches!(command, Command::Report)
}

/// Returns the inputs of an answer: the zone and the certificate that were read, and the present minute
/// `now`.
fn inputs_of<'a>(read: &'a Materials, now: i64) -> GivenView<'a>
    requires materials { AreMaterials read.now }
    requires now { IsClockMinute now }
    ensures exact { given_seen result ≡ given_with read.now now }
    ensures inputs { IsGiven (given_seen result) }
{
    GivenView {
        zone: &read.zone,
        certificate: read.certificate.as_slice(),
        now,
    }
}
