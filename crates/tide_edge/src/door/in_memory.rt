//! A door in memory.

ghost use Rattle.std.specs.Prelude.{◌≡◌, ◌↔◌, ◌<◌, ◌≤◌, ◌++◌, false, IsTrue, [], length, map, take, drop, Some, None, IfOk, MatchOption, slice_get};
ghost use Rattle.std.specs.List.{concat, list_all};
ghost use Rattle.tide_edge.specs.Memory.{are_pieces};
ghost use Rattle.tide_edge.specs.Workings.HeldDoors.{IsTiedDoor};

use crate::door::Door;
use crate::door::request_queue::RequestQueue;
use crate::failed::Failed;
use decimal_text::Bytes;
use std::alloc::{AllocError, Global};

/// A door in memory. Contracts know all requests that will arrive at it, and the bytes read and
/// written over each connection.
#[derive(Drop)]
pub struct MemoryDoor {
    queue: RequestQueue,
    ghost tied: { ∥ IsTiedDoor queue ∥₁ },
}

impl MemoryDoor {
    ghost use Rattle.tide_edge.specs.Adapters.{held_by};
    ghost use Rattle.tide_edge.specs.Doors.{replies_of};
    ghost use Rattle.tide_edge.specs.Memory.{door_state, held_door};

    /// Returns a door at which `requests` are pending, each as the pieces (parts) in which it
    /// arrives; no piece is empty. All replies together have at most `capacity` bytes. The calls
    /// with a number in `fails` fail (counted from 1; calls of `close` aren't counted), and so does
    /// a write if `capacity` is used up.
    ///
    /// It allocates the memory for all replies here, and none later.
    ///
    /// # Errors
    /// [`AllocError`] if memory runs out.
    pub fn new(
        alloc: Global,
        requests: Vec<Vec<Bytes>>,
        capacity: u64,
        fails: Vec<u64>,
    ) -> Result<MemoryDoor, AllocError>
        requires { IsTrue (list_all (λ request. are_pieces request.items) requests.items) }
        ensures { IfOk result (λ door. held_by door ≡ held_door (map (λ request. request.items) requests.items) capacity fails.items) }
    {
        Ok(MemoryDoor {
            queue: RequestQueue::new(alloc, requests, capacity, fails)?,
        })
    }

    /// Returns the bytes written until now as the reply of connection `i`, counted from 0, or
    /// `None` if at most `i` connections were accepted.
    pub fn reply(&self, i: u64) -> Option<&[u8]>
        ensures { MatchOption result (length (replies_of (door_state (held_by self.now))) ≤ i)
            (λ reply. slice_get (replies_of (door_state (held_by self.now))) i ≡ Some reply.now) }
    {
        self.queue.reply(i)
    }
}

impl Door for MemoryDoor {
    ghost use Rattle.tide_edge.specs.Adapters.{held_by};
    ghost use Rattle.tide_edge.specs.FaultSchedule.{answer, is_to_fail};
    ghost use Rattle.tide_edge.specs.Doors.{IsUntouched};
    ghost use Rattle.tide_edge.specs.Memory.{
      door_state,
      comes,
      after_listen,
      after_taking,
      line_count,
      line_read,
      after_line_read,
      is_shut,
      line_write,
      after_line_write,
      after_close,
    };
    ghost use Rattle.tide_edge.specs.Workings.HeldDoors.{lawful_by};

    ghost state = { λ d. door_state (held_by d) };

    ghost lawful = { λ d _. lawful_by d.queue d.tied };

    fn listen(&mut self, port: u16) -> Result<(), Failed>
        requires { (held_by self.old).listener_state.port ≡ None }
        ensures answer { result ≡ answer (is_to_fail (held_by self.old).fault_schedule) record {} }
        ensures after { (held_by self.new) ≡ after_listen (held_by self.old) port }
        ensures untouched { IsUntouched (held_by self.old).listener_state (held_by self.old).connections }
    {
        self.queue.listen(port)
    }

    fn next(&mut self) -> Result<bool, Failed>
        requires listens { IsTrue (held_by self.old).listener_state.listens }
        requires none_open { (held_by self.old).listener_state.is_open ≡ false }
        ensures answer { result ≡ comes (held_by self.old) }
        ensures after { (held_by self.new) ≡ after_taking (held_by self.old) }
    {
        self.queue.next()
    }

    fn read(&mut self, buffer: &mut [u8]) -> Result<usize, Failed>
        requires buffer { 0 < length buffer.old }
        requires open { IsTrue (held_by self.old).listener_state.is_open }
        ensures answer { result ≡ line_read (held_by self.old) (length buffer.old) }
        ensures after { (held_by self.new) ≡ after_line_read (held_by self.old) (length buffer.old) buffer.new }
        ensures filled { buffer.new ≡ take (line_count (held_by self.old) (length buffer.old)) (concat (held_by self.old).coming)
            ++ drop (line_count (held_by self.old) (length buffer.old)) buffer.old }
        ensures end { IfOk result (λ count. (count ≡ 0) ↔ (concat (held_by self.old).coming ≡ [])) }
    {
        self.queue.read(buffer)
    }

    fn write(&mut self, piece: &[u8]) -> Result<usize, Failed>
        requires piece { 0 < length piece.now }
        requires open { IsTrue (held_by self.old).listener_state.is_open }
        ensures answer { result ≡ line_write (held_by self.old) piece.now }
        ensures after { (held_by self.new) ≡ after_line_write (held_by self.old) piece.now }
        ensures some { IfOk result (λ count. 0 < count) }
    {
        self.queue.write(piece)
    }

    fn close(&mut self)
        requires { IsTrue (held_by self.old).listener_state.is_open }
        ensures { (held_by self.new) ≡ after_close (held_by self.old) }
    {
        self.queue.close();
    }
}
