//! Theorems about files, sinks, clocks and doors.

ghost use Rattle.std.specs.Prelude.{◌≡◌, ◌==◌, true, length};
ghost use Rattle.tide_edge.specs.Adapters.{held_by};
ghost use Rattle.tide_edge.specs.Memory.{
  HeldFiles,
  HeldSink,
  HeldClock,
  files_state,
  folder_of,
  sink_state,
  clock_state,
  door_state,
};

use crate::clock::{Clock, FixedClock};
use crate::door::{Door, MemoryDoor};
use crate::files::{Files, MemoryFiles};
use crate::sink::{MemorySink, Sink};

/// Proves that contracts know the contents of files in memory (`is_observable` is true), and that
/// the files are steady if no call is to fail: opening and reading an existing file then never
/// fails.
pub fn memory_files_are_observable()
    ensures state { (m : HeldFiles) → ⟦<MemoryFiles as Files>⟧.state m ≡ files_state m }
    ensures file_contents { (m : HeldFiles) → (files_state m).file_contents
        ≡ record { is_observable = true; folder = folder_of m.files; is_steady = length m.fails == 0 } }
{}

/// Proves that the state of a sink in memory is given by `sink_state`: the bytes that it has
/// accepted, and the number of its failed calls.
pub fn memory_sink_is_observable()
    ensures { (s : HeldSink) → ⟦<MemorySink as Sink>⟧.state s ≡ sink_state s }
{}

/// Proves that contracts know the minute of each reading of a [`FixedClock`] (`is_observable` is
/// true): always the minute that the clock shows.
pub fn fixed_clock_is_observable()
    ensures { (c : HeldClock) → ⟦<FixedClock as Clock>⟧.state c ≡ clock_state c }
{}

/// Proves that contracts know all requests of a door in memory (`is_observable` is true) and the
/// bytes read and written over its connections, and that one read returns bytes of one piece (a
/// part in which a request arrives) only.
pub fn memory_door_is_observable()
    ensures { (d : MemoryDoor) → ⟦<MemoryDoor as Door>⟧.state d ≡ door_state (held_by d) }
{}
