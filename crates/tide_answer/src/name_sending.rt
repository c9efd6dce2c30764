//! A line with a station's name.

ghost use Rattle.std.specs.Prelude.{◌+◌, ◌<◌, ◌^◌, ◌++◌, length, codes};
ghost use Rattle.tide_edge.specs.Sending.{Sends};

use decimal_text::Text;
use tide_edge::{Sink, WriteFailed, send};

/// Writes to `out` the line that has `prefix`, `name` and an LF. `sent` is the number of bytes that were
/// written before. Returns `sent` plus the number of bytes of this line. It doesn't allocate.
///
/// # Errors
/// [`WriteFailed`] if a write to `out` fails: then only the first bytes of the line are written.
pub fn send_name<S: Sink>(
    out: &mut S,
    sent: u64,
    prefix: &str,
    name: &Text,
) -> Result<u64, WriteFailed>
    requires { sent + length prefix.now + length name.now + 1 < 2 ^ 64 }
    ensures { Sends (S.state out.old) (S.state out.new) sent (prefix.now ++ name.now ++ codes "\n") result }
{
    let sent = send(out, sent, prefix)?;
    let sent = send(out, sent, name.as_str())?;
    send(out, sent, "\n")
}
