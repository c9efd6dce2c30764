//! Sinks that accept bytes.

ghost use Rattle.std.specs.Prelude.{◌≡◌, ◌<◌, ◌≤◌, length, IfOk};
ghost use Rattle.tide_edge.specs.SinkStates.{SinkState, sink_after_write};

mod in_memory;
mod line_buffer;
mod of_host;
mod sending;
mod write_through;
mod writing;

use crate::failed::Failed;
pub use in_memory::MemorySink;
pub use line_buffer::LineBuffer;
pub use of_host::HostSink;
pub use sending::send;
pub use writing::{WriteFailed, write_all};

/// A sink that accepts bytes, such as standard output.
///
/// In contracts, `state` has all bytes that the sink has accepted and the number of its failed
/// calls.
pub trait Sink {
    ghost state: { Self → SinkState };

    /// Writes the first bytes of `piece`, which isn't empty, and returns how many were accepted: at
    /// least one.
    ///
    /// # Errors
    /// [`Failed`] if the write failed: then no byte counts as accepted.
    fn write(&mut self, piece: &[u8]) -> Result<usize, Failed>
        requires { 0 < length piece.now }
        ensures after { state self.new ≡ sink_after_write result piece.now (state self.old) }
        ensures some { IfOk result (λ count. 0 < count) }
        ensures within { IfOk result (λ count. count ≤ length piece.now) };
}
