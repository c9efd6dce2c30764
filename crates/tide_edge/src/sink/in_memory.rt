//! A sink in memory.

ghost use Rattle.std.specs.Prelude.{◌≡◌, ◌<◌, ◌≤◌, [], IfOk, length};

use crate::failed::Failed;
use crate::fault_schedule::FaultSchedule;
use crate::sink::Sink;
use std::alloc::{AllocError, Global};
use std::marker::Model;

/// A sink in memory, which keeps the bytes that it has accepted.
#[derive(Drop)]
pub struct MemorySink {
    bytes: Vec<u8>,
    most: u64,
    capacity: u64,
    fault_schedule: FaultSchedule,
}

impl Model for MemorySink {
    ghost use Rattle.tide_edge.specs.Memory.{HeldSink};
    ghost use Rattle.std.specs.Prelude.{◌≤◌, vec_len, vec_capacity};

    ghost Value = { HeldSink };

    ghost view = { λ s. record { accepted = s.bytes.items; most = s.most; capacity = s.capacity; fault_schedule = s.fault_schedule } };

    ghost invariant = { λ s. (1 ≤ s.most) × (vec_len s.bytes ≤ s.capacity) × (s.capacity ≤ vec_capacity s.bytes) };
}

impl MemorySink {
    ghost use Rattle.tide_edge.specs.FaultSchedule.{schedule_of};

    /// Returns an empty sink that accepts at most `most` bytes a call, at least 1, and `capacity`
    /// bytes in all. The calls with a number in `fails`, counted from 1, fail, and so does each
    /// call once `capacity` is used up.
    ///
    /// It allocates `capacity` bytes here, and none later.
    ///
    /// # Errors
    /// [`AllocError`] if memory runs out.
    pub fn new(
        alloc: Global,
        most: u64,
        capacity: u64,
        fails: Vec<u64>,
    ) -> Result<MemorySink, AllocError>
        requires { 1 ≤ most }
        ensures { IfOk result (λ sink. sink ≡ record {
          accepted = [];
          most = most;
          capacity = capacity;
          fault_schedule = schedule_of fails.items;
        }) }
    {
        Ok(MemorySink {
            bytes: Vec::with_capacity(alloc, capacity as usize)?,
            most,
            capacity,
            fault_schedule: FaultSchedule::new(fails),
        })
    }

    /// Borrows the bytes that the sink has accepted.
    pub fn bytes(&self) -> &[u8]
        ensures { result.now ≡ self.now.accepted }
    {
        self.bytes.as_slice()
    }
}

impl Sink for MemorySink {
    ghost use Rattle.tide_edge.specs.FaultSchedule.{answer};
    ghost use Rattle.tide_edge.specs.Memory.{sink_state, is_refused, write_count, after_write};

    ghost state = { λ s. sink_state s };

    fn write(&mut self, piece: &[u8]) -> Result<usize, Failed>
        requires { 0 < length piece.now }
        ensures answer { result ≡ answer (is_refused self.old) (write_count self.old (length piece.now)) }
        ensures after { self.new ≡ after_write self.old piece.now }
        ensures some { IfOk result (λ count. 0 < count) }
    {
        self.fault_schedule.next()?;
        let left = self.capacity - self.bytes.len() as u64;
        if left == 0 {
            return Err(self.fault_schedule.fail());
        }
        let count = (piece.len() as u64).min(self.most).min(left) as usize;
        self.bytes.extend_from_slice(&piece[..count]).unwrap();
        Ok(count)
    }
}
