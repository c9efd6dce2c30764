//! Writing all bytes of a slice.

ghost use Rattle.std.specs.Prelude.{◌≡◌, ◌<◌, length, take, IfErr, OnOk};
ghost use Rattle.tide_edge.specs.SinkStates.{put, sink_failed};

use crate::sink::Sink;
use crate::unread_bytes::rest_from;
use thiserror::Error;

/// The error of [`write_all`]: a write failed before all bytes were accepted.
#[derive(Clone, Copy, Debug, PartialEq, Eq, Error)]
#[error("a write failed after {sent} bytes")]
pub struct WriteFailed {
    /// The number of bytes that were accepted before the failure.
    pub sent: u64,
}

/// Writes all of `bytes` to `sink`. It doesn't allocate.
///
/// # Errors
/// [`WriteFailed`] if a write failed: exactly the first `sent` bytes were accepted, fewer than all,
/// and nothing was written after that.
pub fn write_all<S: Sink>(sink: &mut S, bytes: &[u8]) -> Result<(), WriteFailed>
    ensures all { OnOk result (S.state sink.new ≡ put bytes.now (S.state sink.old)) }
    ensures sent { IfErr result (λ fault. S.state sink.new ≡ sink_failed (put (take fault.sent bytes.now) (S.state sink.old))) }
    ensures cut_short { IfErr result (λ fault. fault.sent < length bytes.now) }
{
    let mut sent = 0;
    while sent < bytes.len() {
        match sink.write(rest_from(bytes, sent)) {
            Ok(count) => sent += count,
            Err(_) => return Err(WriteFailed { sent: sent as u64 }),
        }
    }
    Ok(())
}
