//! The objects outside of the program: files, sinks of bytes, a clock, and a door (a listening port
//! that accepts connections).
//!
//! Each is a trait with two implementations. Of the one in memory, contracts know the contents; the
//! one over the machine is tied by contracts to the bytes of the system below it. [`pass_file`]
//! passes the bytes of a file to a [`Receiver`] while they are read, [`read_all`] returns the bytes
//! of a whole file, and [`write_all`] writes all bytes of a slice. [`send`] writes the next piece of a
//! longer text, and a [`LineBuffer`] collects lines of a text, so that several need only one write.
//! All of these work with any implementation.
#![tactic(auto)]

mod clock;
mod count;
mod door;
mod failed;
mod fault_schedule;
mod files;
mod host_fault;
mod laws;
mod rows;
mod sink;
mod unread_bytes;

pub use clock::{Clock, FixedClock, HostClock};
pub use door::{Door, HostDoor, MemoryDoor};
pub use failed::Failed;
pub use files::{
    Files, HostFiles, MemoryFiles, NamedFile, PIECE, ReadAllFault, Receiver, pass_file, read_all,
};
pub use laws::{
    fixed_clock_is_observable, memory_door_is_observable, memory_files_are_observable,
    memory_sink_is_observable,
};
pub use rows::sample_states;
pub use sink::{HostSink, LineBuffer, MemorySink, Sink, WriteFailed, send, write_all};
