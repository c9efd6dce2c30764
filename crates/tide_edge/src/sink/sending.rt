//! A text that is written piece by piece.

ghost use Rattle.std.specs.Prelude.{◌+◌, ◌<◌, ◌^◌, length};
ghost use Rattle.tide_edge.specs.Sending.{Sends};

use crate::sink::Sink;
use crate::sink::writing::{WriteFailed, write_all};

/// Writes `piece`, the next piece of a longer text, to `out`. `sent` is the number of bytes of the text
/// that were written before. Returns `sent` plus the number of bytes of `piece`. It doesn't allocate.
///
/// # Errors
/// [`WriteFailed`] if a write to `out` failed: then `out` has only the first bytes of `piece`, and the
/// error has the number of bytes of the longer text that were written.
pub fn send<S: Sink>(out: &mut S, sent: u64, piece: &str) -> Result<u64, WriteFailed>
    requires { sent + length piece.now < 2 ^ 64 }
    ensures { Sends (S.state out.old) (S.state out.new) sent piece.now result }
{
    match write_all(out, piece.as_bytes()) {
        Ok(()) => Ok(sent + piece.len() as u64),
        Err(fault) => Err(WriteFailed {
            sent: sent + fault.sent,
        }),
    }
}
