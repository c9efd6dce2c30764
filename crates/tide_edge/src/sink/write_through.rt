//! Writing once to a writer of the machine.

ghost use Rattle.std.specs.Prelude.{◌<◌, ◌≤◌, length, IfOk};
ghost use Rattle.tide_edge.specs.Adapters.{WritesThrough};

use crate::failed::Failed;
use std::io::Write;

/// Writes the first bytes of `piece`, flushes the writer, and returns how many bytes were accepted:
/// at least one.
///
/// # Errors
/// [`Failed`] if the writer accepted no byte, or if writing or flushing failed.
pub(crate) fn write_through<W: Write>(writer: &mut W, piece: &[u8]) -> Result<usize, Failed>
    ensures some { IfOk result (λ count. 0 < count) }
    ensures within { IfOk result (λ count. count ≤ length piece.now) }
    ensures through { WritesThrough (W.contents writer.old) (W.contents writer.new) result piece.now }
{
    let Ok(count) = writer.write(piece) else {
        return Err(Failed);
    };
    if count == 0 {
        return Err(Failed);
    }
    match writer.flush() {
        Ok(()) => Ok(count),
        Err(_) => Err(Failed),
    }
}
