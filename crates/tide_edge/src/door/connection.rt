//! One connection, with the bytes read and written over it.

ghost use Rattle.std.specs.Prelude.{◌≡◌, ◌≤◌, ◌==◌, length, Ok, Err};
ghost use Rattle.tide_edge.specs.declared.failed.Failed.{Failed};

use crate::failed::Failed;
use ghost_log::Log;
use std::marker::Model;

/// One connection of a door: the bytes received and how many of them the last read returned;
/// whether the end of the request was found; the bytes of the reply that were accepted; and whether
/// a read or a write has failed. The bytes are kept in proofs only.
#[derive(Drop)]
pub(crate) struct OneConnection {
    came: Log<u8>,
    last: usize,
    is_ended: bool,
    sent: Log<u8>,
    read_failed: bool,
    write_failed: bool,
}

impl Model for OneConnection {
    ghost use Rattle.tide_edge.specs.Doors.{Connection};

    ghost Value = { Connection };

    ghost view = { λ c. record {
      came = c.came.items;
      last = c.last;
      is_ended = c.is_ended;
      sent = c.sent.items;
      read_failed = c.read_failed;
      write_failed = c.write_failed;
    } };
}

impl OneConnection {
    ghost use Rattle.std.specs.Prelude.{IfOk};
    ghost use Rattle.tide_edge.specs.Doors.{connection_after_read, connection_after_write, just_taken};

    /// Returns a connection that was just accepted: no byte of it has been read or written.
    pub(crate) fn new() -> OneConnection
        ensures { result ≡ just_taken }
    {
        OneConnection {
            came: Log::new(),
            last: 0,
            is_ended: false,
            sent: Log::new(),
            read_failed: false,
            write_failed: false,
        }
    }

    /// Records a call of `read` with its `outcome`: the first bytes of `buffer`, as many as the
    /// count says, were received (a count of 0 is the end of the request), or the call failed.
    pub(crate) fn read(&mut self, buffer: &[u8], outcome: &Result<usize, Failed>)
        requires { IfOk outcome.now (λ count. count ≤ length buffer.now) }
        ensures { self.new ≡ connection_after_read outcome.now buffer.now self.old }
    {
        match outcome {
            Ok(count) => {
                self.came = self.came.then(&buffer[..*count]);
                self.last = *count;
                self.is_ended = *count == 0 || self.is_ended;
            }
            Err(_) => {
                self.last = 0;
                self.read_failed = true;
            }
        }
    }

    /// Records a call of `write` with its `outcome`: the first bytes of `piece`, as many as the
    /// count says, were accepted, or the call failed.
    pub(crate) fn write(&mut self, piece: &[u8], outcome: &Result<usize, Failed>)
        requires { IfOk outcome.now (λ count. count ≤ length piece.now) }
        ensures { self.new ≡ connection_after_write outcome.now piece.now self.old }
    {
        match outcome {
            Ok(count) => self.sent = self.sent.then(&piece[..*count]),
            Err(_) => self.write_failed = true,
        }
    }
}
