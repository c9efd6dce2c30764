//! The program over the objects of a machine.

ghost use Rattle.std.specs.Prelude.{◌≡◌};
ghost use Rattle.tide_edge.specs.Adapters.{writer_of};
ghost use Rattle.tide.specs.Promises.{AnswersOver, world_states};

use crate::given::respond_to;
use std::env::Args;
use std::io::{self, Write};
use std::net::Net;
use std::rt;
use tide_edge::{Clock, Door, Files, HostClock, HostDoor, HostFiles, HostSink, Sink};
use tide_fault::Status;

/// Responds to `arguments`, with the files, the port and the clock of `machine`, writing to the streams
/// `out` and `err`. Returns the exit status, 0 to 8.
pub fn respond_here<R, W, V>(machine: R, arguments: io::Result<Args>, out: W, err: V) -> Status
where
    R: rt::Files + rt::Clock + Net + AllocGlobal + Copy + Drop,
    W: Write + Drop,
    V: Write + Drop,
    ensures { AnswersOver
        (world_states ⟦<HostFiles<R> as Files>⟧.state ⟦<HostDoor<R> as Door>⟧.state ⟦<HostSink<W> as Sink>⟧.state
        ⟦<HostSink<V> as Sink>⟧.state ⟦<HostClock<R> as Clock>⟧.state)
        (λ sink. writer_of sink ≡ out) (λ sink. writer_of sink ≡ err) arguments result }
{
    let mut files = HostFiles::new(machine);
    let mut door = HostDoor::new(machine);
    let mut clock = HostClock::new(machine);
    let mut written = HostSink::new(out);
    let mut printed = HostSink::new(err);
    respond_to(
        machine.alloc(),
        arguments,
        &mut files,
        &mut door,
        &mut written,
        &mut printed,
        &mut clock,
    )
}
