//! Answers that are streamed.

ghost use Rattle.std.specs.Prelude.{◌≡◌, IsSome, IsTrue, is_some};
ghost use Rattle.std.specs.Option.{ForSome};
ghost use Rattle.decimal_text.specs.Expected.{EqualsUnlessNoMemory};
ghost use Rattle.harmonics_book.specs.Books.{IsBook};
ghost use Rattle.question.specs.Asked.{AreInRange};
ghost use Rattle.tide_fault.specs.Faults.{refusal_is_out_of_memory};
ghost use Rattle.tide_answer.specs.Givens.{IsGiven};
ghost use Rattle.tide_answer.specs.Streams.{can_stream, prepared, Streams};

use crate::events_answer::{Source, find_answer};
use crate::inputs::Given;
use crate::streaming::Stream;
use harmonics_book::Book;
use question::{Command, Question, ValidQuestion};
use station_span::StationData;
use station_table::OffsetTable;
use std::alloc::Global;
use tide_edge::{Sink, WriteFailed};
use tide_fault::Refusal;

/// The prepared answer to a `predict` or `certify` request that nothing refuses. It holds what is needed
/// to write the answer while it is computed, if the answer can be streamed in this way, and nothing
/// otherwise.
#[derive(Drop)]
pub struct Ready {
    stream: Option<Stream>,
}

impl Ready {
    /// Returns true if the answer is streamed, that is, computed while it is written: the station has no
    /// offsets, the layout is `plain`, and the zone isn't read from a zone file.
    pub fn streams(&self) -> bool
        ensures { result ≡ is_some self.now.stream }
    {
        self.stream.is_some()
    }
}

/// Returns the prepared answer to a `predict` or `certify` request. If [`Ready::streams`] is true,
/// [`answer_into`](crate::answer_into) writes the answer while it is computed.
///
/// # Errors
/// The first [`Refusal`] in this order: the station isn't found, it is a hydraulic current, the span is
/// backward or outside the file's years, the station's constants exceed a limit ([`Refusal::TooLarge`]
/// or [`Refusal::TooSteep`]), the span is longer than 5,270,400 minutes, or the request has a mark but
/// the offsets of the station's high and low waters differ. If memory runs out, [`Refusal::NoMemory`] is
/// returned in place of any other result.
pub fn prepare(
    alloc: Global,
    book: &Book,
    table: &OffsetTable,
    question: &Question,
    inputs: &Given,
) -> Result<Ready, Refusal>
    requires book { IsBook book.now }
    requires ranges { AreInRange question.now }
    requires inputs { IsGiven inputs.now }
    requires command { IsTrue (can_stream question.now.command) }
    ensures { EqualsUnlessNoMemory refusal_is_out_of_memory (prepared book.now table.now question.now inputs.entry.now) result }
{
    let stations = StationData::new(book, table);
    let question = ValidQuestion::new(question);
    match find_answer(alloc, &stations, &question, inputs.view())?.source()? {
        Source::Stream(stream) => Ok(Ready {
            stream: Some(stream),
        }),
        Source::Whole(_whole) => Ok(Ready { stream: None }),
    }
}

/// Writes the text of the streamed answer `ready` to `out` while it is computed, and returns the number
/// of its cells. The call doesn't allocate.
///
/// # Errors
/// [`WriteFailed`] if a write to `out` fails: then exactly the first `sent` bytes of the text were
/// written.
pub fn answer_into<S: Sink>(ready: &Ready, out: &mut S) -> Result<u64, WriteFailed>
    requires { IsSome ready.now.stream }
    ensures { ForSome ready.now.stream (λ answer. Streams (S.state out.old) (S.state out.new) answer result) }
{
    match &ready.stream {
        Some(stream) => stream.write(out),
        None => unreachable!(),
    }
}

/// Returns true if answers of `command` can be streamed, that is, written while they are computed.
/// Whether an answer is streamed also depends on its station, layout and zone: see [`Ready::streams`].
pub fn can_stream(command: Command) -> bool
    ensures { result ≡ can_stream command }
{
    matches!(command, Command::Predict | Command::Certify)
}
