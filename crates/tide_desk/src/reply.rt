//! Answers that can be written.

ghost use Rattle.std.specs.Prelude.{◌≡◌, IfOk, is_err};
ghost use Rattle.tide_edge.specs.SinkStates.{Wrote};
ghost use Rattle.tide_desk.specs.Workings.Replies.{answer_in};

use crate::body::Body;
use std::marker::Model;
use tide_answer::{Answer, Stream};
use tide_edge::{Sink, WriteFailed, write_all};

/// An answer that is ready to be written: its text is in memory, or is computed while it is written. In
/// contracts its value is the answer.
#[derive(Drop)]
pub struct Reply {
    body: Body,
}

impl Model for Reply {
    ghost use Rattle.tide_answer.specs.declared.text.Answer.{Answer};
    ghost use Rattle.tide_desk.specs.Workings.Replies.{answer_in};

    ghost Value = { Answer };

    ghost view = { λ r. answer_in r.body };
}

impl Reply {
    /// Returns the answer of `body`, ready to be written.
    pub fn of(body: Body) -> Reply
        ensures { result ≡ answer_in body }
    {
        Reply { body }
    }

    /// Writes the text of the answer to `out`, and returns true if the answer rejects a certificate. The
    /// call doesn't allocate if the text is computed while it is written.
    ///
    /// # Errors
    /// [`WriteFailed`] if a write to `out` fails. Nothing is written after it.
    pub fn write<O: Sink>(&self, out: &mut O) -> Result<bool, WriteFailed>
        ensures wrote { Wrote (O.state out.old) (O.state out.new) (is_err result) self.now.text }
        ensures judged { IfOk result (λ rejected. rejected ≡ self.now.rejected) }
    {
        match &self.body {
            Body::Text(answer) => write_text(answer, out),
            Body::Stream(stream) => write_stream(stream, out),
        }
    }
}

/// Writes a text in memory.
fn write_text<O: Sink>(answer: &Answer, out: &mut O) -> Result<bool, WriteFailed>
    ensures wrote { Wrote (O.state out.old) (O.state out.new) (is_err result) answer.now.text }
    ensures judged { IfOk result (λ rejected. rejected ≡ answer.now.rejected) }
{
    write_all(out, answer.text.as_slice())?;
    Ok(answer.rejected)
}

/// Writes an answer while it is computed. It rejects nothing.
fn write_stream<O: Sink>(stream: &Stream, out: &mut O) -> Result<bool, WriteFailed>
    ensures wrote { Wrote (O.state out.old) (O.state out.new) (is_err result) stream.now.text }
    ensures judged { IfOk result (λ rejected. rejected ≡ stream.now.rejected) }
{
    stream.write(out)?;
    Ok(false)
}
