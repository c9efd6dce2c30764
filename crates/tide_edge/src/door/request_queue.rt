//! The requests of a door in memory, and its connections.

ghost use Rattle.std.specs.Prelude.{
  ◌≡◌,
  ◌↔◌,
  ◌<◌,
  ◌≤◌,
  ◌++◌,
  false,
  IsTrue,
  [],
  length,
  map,
  take,
  drop,
  Some,
  None,
  IfOk,
  MatchOption,
  slice_get,
};
ghost use Rattle.std.specs.List.{concat, list_all};
ghost use Rattle.tide_edge.specs.Memory.{are_pieces};

use crate::door::connections::Connections;
use crate::door::listener_state::ListenerState;
use crate::door::pieces::Pieces;
use crate::door::replies::Replies;
use crate::failed::Failed;
use crate::fault_schedule::FaultSchedule;
use crate::host_fault::count_fault;
use decimal_text::Bytes;
use ghost_log::Log;
use std::alloc::{AllocError, Global};
use std::collections::VecDeque;
use std::marker::Model;

/// The requests of a door in memory, the connections over which they arrive, and their replies.
#[derive(Drop)]
pub(crate) struct RequestQueue {
    requests: Log<Vec<Bytes>>,
    listener_state: ListenerState,
    connections: Connections,
    pending: VecDeque<Vec<Bytes>>,
    coming: Pieces,
    replies: Replies,
    fault_schedule: FaultSchedule,
    line_faults: u64,
}

impl Model for RequestQueue {
    ghost use Rattle.std.specs.Prelude.{◌≡◌, ◌≤◌, IsTrue, None, map};
    ghost use Rattle.std.specs.List.{list_all};
    ghost use Rattle.std.specs.VecDeque.{deque_len};
    ghost use Rattle.tide_edge.specs.Doors.{IsUntouched};
    ghost use Rattle.tide_edge.specs.Memory.{HeldDoor, are_pieces};

    ghost Value = { HeldDoor };

    ghost view = { λ d. record {
      requests = map (λ request. request.items) d.requests.items;
      listener_state = d.listener_state;
      connections = d.connections;
      pending = map (λ request. request.items) d.pending.items;
      coming = d.coming;
      replies = d.replies.replies;
      capacity = d.replies.capacity;
      fault_schedule = d.fault_schedule;
      line_faults = d.line_faults;
    } };

    ghost invariant = { λ d. (deque_len d.pending ≤ d.replies.more)
        × IsTrue (list_all (λ request. are_pieces request.items) d.pending.items)
        × (d.listener_state.port ≡ None → IsUntouched d.listener_state d.connections) };
}

impl RequestQueue {
    ghost use Rattle.tide_edge.specs.FaultSchedule.{answer, is_to_fail};
    ghost use Rattle.tide_edge.specs.Doors.{IsUntouched};
    ghost use Rattle.tide_edge.specs.Memory.{
      held_door,
      comes,
      after_listen,
      after_taking,
      line_count,
      line_read,
      after_line_read,
      is_shut,
      line_write,
      after_line_write,
      after_close,
    };

    /// Returns a queue in which `requests` are pending, each as the pieces (parts) in which it
    /// arrives; no piece is empty. All replies together have at most `capacity` bytes. The calls
    /// with a number in `fails` fail (counted from 1; calls of `close` aren't counted), and so does
    /// a write if `capacity` is used up.
    ///
    /// It allocates the memory for all replies here, and none later.
    ///
    /// # Errors
    /// [`AllocError`] if memory runs out.
    pub(crate) fn new(
        alloc: Global,
        requests: Vec<Vec<Bytes>>,
        capacity: u64,
        fails: Vec<u64>,
    ) -> Result<RequestQueue, AllocError>
        requires { IsTrue (list_all (λ request. are_pieces request.items) requests.items) }
        ensures { IfOk result (λ queue. queue ≡ held_door (map (λ request. request.items) requests.items) capacity fails.items) }
    {
        Ok(RequestQueue {
            requests: Log::new().then(&requests),
            listener_state: ListenerState::not_listening(),
            connections: Connections::none(),
            replies: Replies::new(alloc, capacity, requests.len())?,
            pending: VecDeque::from(requests),
            coming: Pieces::new(Vec::new(alloc)),
            fault_schedule: FaultSchedule::new(fails),
            line_faults: 0,
        })
    }

    /// Returns the bytes written until now as the reply of connection `i`, counted from 0, or
    /// `None` if at most `i` connections were accepted.
    pub(crate) fn reply(&self, i: u64) -> Option<&[u8]>
        ensures { MatchOption result (length self.now.replies ≤ i)
            (λ reply. slice_get self.now.replies i ≡ Some reply.now) }
    {
        self.replies.get(i)
    }

    /// Records a call of `listen` with `port`, and returns its outcome. It can be called only once.
    ///
    /// # Errors
    /// [`Failed`] if the call's number is among the numbers of the calls that are to fail.
    pub(crate) fn listen(&mut self, port: u16) -> Result<(), Failed>
        requires { self.old.listener_state.port ≡ None }
        ensures answer { result ≡ answer (is_to_fail self.old.fault_schedule) record {} }
        ensures after { self.new ≡ after_listen self.old port }
        ensures untouched { IsUntouched self.old.listener_state self.old.connections }
    {
        let outcome = self.fault_schedule.next();
        self.listener_state = ListenerState::listen_requested(port, outcome.is_ok());
        outcome
    }

    /// Accepts the next pending request, and returns true; returns false if none is pending.
    ///
    /// # Errors
    /// [`Failed`] if the call's number is among the numbers of the calls that are to fail.
    pub(crate) fn next(&mut self) -> Result<bool, Failed>
        requires listens { IsTrue self.old.listener_state.listens }
        requires none_open { self.old.listener_state.is_open ≡ false }
        ensures answer { result ≡ comes self.old }
        ensures after { self.new ≡ after_taking self.old }
    {
        self.fault_schedule.next()?;
        let Some(pieces) = self.pending.pop_front() else {
            self.listener_state.end();
            return Ok(false);
        };
        self.coming = Pieces::new(pieces);
        self.replies.begin();
        self.listener_state.open();
        self.connections.open();
        Ok(true)
    }

    /// Reads the next bytes of the current request into the first bytes of `buffer`, which isn't
    /// empty, and returns their count: 0 at the end of the request. They are bytes of one piece of
    /// the request.
    ///
    /// # Errors
    /// [`Failed`] if the call's number is among the numbers of the calls that are to fail.
    pub(crate) fn read(&mut self, buffer: &mut [u8]) -> Result<usize, Failed>
        requires buffer { 0 < length buffer.old }
        requires open { IsTrue self.old.listener_state.is_open }
        ensures answer { result ≡ line_read self.old (length buffer.old) }
        ensures after { self.new ≡ after_line_read self.old (length buffer.old) buffer.new }
        ensures filled { buffer.new ≡ take (line_count self.old (length buffer.old)) (concat self.old.coming)
            ++ drop (line_count self.old (length buffer.old)) buffer.old }
        ensures end { IfOk result (λ count. (count ≡ 0) ↔ (concat self.old.coming ≡ [])) }
    {
        let outcome = if self.fault_schedule.is_next_to_fail() {
            Err(count_fault(&mut self.line_faults))
        } else {
            Ok(self.coming.read(buffer))
        };
        self.connections.read(buffer, &outcome);
        outcome
    }

    /// Appends the first bytes of `piece` to the current reply, and returns how many were accepted:
    /// at least one.
    ///
    /// # Errors
    /// [`Failed`] if the call's number is among the numbers of the calls that are to fail, or if
    /// the memory for all replies is used up.
    pub(crate) fn write(&mut self, piece: &[u8]) -> Result<usize, Failed>
        requires piece { 0 < length piece.now }
        requires open { IsTrue self.old.listener_state.is_open }
        ensures answer { result ≡ line_write self.old piece.now }
        ensures after { self.new ≡ after_line_write self.old piece.now }
        ensures some { IfOk result (λ count. 0 < count) }
    {
        let capacity = self.replies.capacity();
        let outcome = if self.fault_schedule.is_next_to_fail() || capacity == 0 {
            Err(count_fault(&mut self.line_faults))
        } else {
            let count = (piece.len() as u64).min(capacity) as usize;
            self.replies.append(&piece[..count]);
            Ok(count)
        };
        self.connections.write(piece, &outcome);
        outcome
    }

    /// Closes the open connection.
    pub(crate) fn close(&mut self)
        requires { IsTrue self.old.listener_state.is_open }
        ensures { self.new ≡ after_close self.old }
    {
        self.listener_state.close();
    }
}
