//! Sinks over standard output and standard error.

ghost use Rattle.std.specs.Prelude.{◌≡◌, ◌<◌, ◌≤◌, [], length, IfOk};
ghost use Rattle.tide_edge.specs.SinkStates.{sink_after_write};

use crate::failed::Failed;
use crate::host_fault::count_fault;
use crate::sink::Sink;
use crate::sink::write_through::write_through;
use ghost_log::Log;
use std::io::Write;

/// A sink over a writer of the machine, such as standard output or standard error.
///
/// Each write is flushed: the bytes that it accepts have been passed to the system. A write that
/// fails may also have passed some bytes to the system.
#[derive(Drop)]
pub struct HostSink<W: Write + Drop> {
    writer: W,
    accepted: Log<u8>,
    faults: u64,
}

impl<W: Write + Drop> HostSink<W> {
    ghost use Rattle.tide_edge.specs.Adapters.{writer_of};

    /// Returns a sink over `writer`, such as `rt.stdout()` or `rt.stderr()`.
    pub fn new(writer: W) -> HostSink<W>
        ensures over { writer_of result ≡ writer }
        ensures unused { ⟦<HostSink<W> as Sink>⟧.state result ≡ record { accepted = []; faults = 0 } }
    {
        HostSink {
            writer,
            accepted: Log::new(),
            faults: 0,
        }
    }
}

impl<W: Write + Drop> Sink for HostSink<W> {
    ghost use Rattle.tide_edge.specs.Adapters.{writer_of, WritesThrough};

    ghost state = { λ h. record { accepted = h.accepted.items; faults = h.faults } };

    fn write(&mut self, piece: &[u8]) -> Result<usize, Failed>
        requires { 0 < length piece.now }
        ensures after { ⟦<HostSink<W> as Sink>⟧.state self.new
            ≡ sink_after_write result piece.now (⟦<HostSink<W> as Sink>⟧.state self.old) }
        ensures some { IfOk result (λ count. 0 < count) }
        ensures within { IfOk result (λ count. count ≤ length piece.now) }
        ensures tied { WritesThrough (W.contents (writer_of self.old)) (W.contents (writer_of self.new)) result piece.now }
    {
        let written = write_through(&mut self.writer, piece);
        match written {
            Ok(count) => {
                self.accepted = self.accepted.then(&piece[..count]);
            }
            Err(_) => {
                count_fault(&mut self.faults);
            }
        }
        written
    }
}
