//! Listening ports, which serve one connection after the other.

ghost use Rattle.std.specs.Prelude.{◌≡◌, ◌<◌, ◌≤◌, false, IsTrue, length, None, IfOk};
ghost use Rattle.tide_edge.specs.DoorLaws.{IsLawful};
ghost use Rattle.tide_edge.specs.Doors.{
  DoorState,
  door_after_listen,
  door_after_next,
  door_after_read,
  door_after_write,
  door_after_close,
  IsUntouched,
};

mod connection;
mod connections;
mod host_line;
mod in_memory;
mod listener_state;
mod of_host;
mod open_line;
mod pieces;
mod replies;
mod request_queue;

use crate::failed::Failed;
pub use in_memory::MemoryDoor;
pub use of_host::HostDoor;

/// A listening port: it accepts connections one after the other, reads the request of the open
/// connection, and writes its reply.
///
/// In contracts, `state` has the listener's port and flags, and the bytes read and written over
/// each connection. If its flag `is_observable` is true, as for a door in memory, it also has all
/// requests that will arrive, and the bytes read over a connection are bytes of its request. A TCP
/// port of the machine isn't observable: of it, only what was read and written is known.
pub trait Door {
    ghost state: { Self → DoorState };

    /// Listens on `port`. It can be called only once: a call that failed can't be repeated either.
    /// No connection was accepted before it.
    ///
    /// # Errors
    /// [`Failed`] if the door can't listen on `port`.
    fn listen(&mut self, port: u16) -> Result<(), Failed>
        requires { (state self.old).listener_state.port ≡ None }
        ensures after { state self.new ≡ door_after_listen result port (state self.old) }
        ensures untouched { IsUntouched (state self.old).listener_state (state self.old).connections };

    /// Accepts the next connection and returns true, or returns false if there are no more
    /// connections. It can be called while the door listens and no connection is open.
    ///
    /// # Errors
    /// [`Failed`] if no connection could be accepted.
    fn next(&mut self) -> Result<bool, Failed>
        requires listens { IsTrue (state self.old).listener_state.listens }
        requires none_open { (state self.old).listener_state.is_open ≡ false }
        ensures { state self.new ≡ door_after_next result (state self.old) };

    /// Reads the next bytes of the open connection's request into the first bytes of `buffer`,
    /// which isn't empty, and returns their count: 0 at the end of the request. In a door that
    /// keeps pieces (the parts in which a request arrives), one call reads bytes of one piece only.
    ///
    /// # Errors
    /// [`Failed`] if the connection can't be read.
    fn read(&mut self, buffer: &mut [u8]) -> Result<usize, Failed>
        requires buffer { 0 < length buffer.old }
        requires open { IsTrue (state self.old).listener_state.is_open }
        ensures after { state self.new ≡ door_after_read result buffer.new (state self.old) }
        ensures within { IfOk result (λ count. count ≤ length buffer.old) };

    /// Writes the first bytes of `piece`, which isn't empty, to the open connection, and returns
    /// how many were accepted: at least one.
    ///
    /// # Errors
    /// [`Failed`] if no byte was accepted.
    fn write(&mut self, piece: &[u8]) -> Result<usize, Failed>
        requires piece { 0 < length piece.now }
        requires open { IsTrue (state self.old).listener_state.is_open }
        ensures after { state self.new ≡ door_after_write result piece.now (state self.old) }
        ensures some { IfOk result (λ count. 0 < count) }
        ensures within { IfOk result (λ count. count ≤ length piece.now) };

    /// Closes the open connection.
    fn close(&mut self)
        requires { IsTrue (state self.old).listener_state.is_open }
        ensures { state self.new ≡ door_after_close (state self.old) };

    /// The law of doors. If the requests are observable (the state has all of them), each accepted
    /// connection has one of them, in order: the bytes read over it are a prefix of its request,
    /// and all of it if the end was found; and no request is pending once `next` has returned
    /// false. If the door also keeps pieces (the parts in which a request arrives), the last read
    /// returned bytes of one piece only.
    ghost lawful: { (door : Self) → IsLawful (state door) };
}
