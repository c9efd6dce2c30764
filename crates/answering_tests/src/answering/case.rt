//! A request with all inputs of its answer.

ghost use Rattle.harmonics_book.specs.Books.{IsBook};
ghost use Rattle.question.specs.Asked.{IsAsked};
ghost use Rattle.tide_answer.specs.Givens.{IsGiven};

use harmonics_book::Book;
use question::{Command, Question, pairs_of_words, read_question};
use sample_tides::words_of;
use station_table::OffsetTable;
use std::alloc::{AllocError, Global};
use std::process::Abort;
use tide_answer::{Given, Ready, answer_into, prepare};
use tide_edge::MemorySink;

/// A request with all that its answer depends on: the harmonic constants, the table of subordinate
/// stations, and the zone, certificate and current minute.
#[derive(Drop)]
pub struct Case {
    pub book: Book,
    pub table: OffsetTable,
    pub question: Question,
    pub inputs: Given,
}

impl Case {
    /// Streams the answer to `sink`. Returns `None` if all of it was written, or the number of bytes
    /// that `sink` had accepted when a write failed.
    ///
    /// # Errors
    /// [`AllocError`] if memory runs out, the command is neither `predict` nor `certify`, the request
    /// is refused, or its answer isn't one that is streamed.
    pub fn send(&self, alloc: Global, sink: &mut MemorySink) -> Result<Option<u64>, AllocError>
        requires book { IsBook self.now.book }
        requires question { IsAsked self.now.question }
        requires inputs { IsGiven self.now.inputs }
    {
        if !matches!(self.question.command, Command::Predict | Command::Certify) {
            return Err(AllocError);
        }
        match prepare(alloc, &self.book, &self.table, &self.question, &self.inputs) {
            Ok(ready) => written(&ready, sink),
            Err(_) => Err(AllocError),
        }
    }
}

/// Streams an answer to `sink`, and returns the number of bytes sent before a write that failed.
fn written(ready: &Ready, sink: &mut MemorySink) -> Result<Option<u64>, AllocError> {
    if !ready.streams() {
        return Err(AllocError);
    }
    let written = answer_into(ready, sink);
    Ok(written.err().map(|fault| fault.sent))
}

/// Returns the request that the arguments in `line` make. The test fails if they aren't a request, or memory
/// runs out.
pub fn asked(rt: &impl Abort, alloc: Global, line: &str) -> Question
    ensures { IsAsked result }
{
    let words = words_of(alloc, line).expect(rt, "words");
    let pairs = pairs_of_words(alloc, &words).expect(rt, "pairs");
    read_question(alloc, &pairs).expect(rt, "a question")
}
