//! All connections, with the bytes read and written over each.

ghost use Rattle.std.specs.Prelude.{◌≡◌, ◌≤◌, length, IfOk, Ok, true};
ghost use Rattle.tide_edge.specs.declared.failed.Failed.{Failed};

use crate::door::connection::OneConnection;
use crate::failed::Failed;
use ghost_log::Log;
use std::marker::Model;
use std::slice;

/// All connections of a door, with the bytes read and written over each: the latest, and the
/// earlier ones. The bytes and lists exist in proofs only: none is kept at run time.
#[derive(Drop)]
pub(crate) struct Connections {
    earlier: Log<OneConnection>,
    latest: Option<OneConnection>,
}

impl Model for Connections {
    ghost use Rattle.tide_edge.specs.Doors as spec;

    ghost Value = { spec.Connections };

    ghost view = { λ c. record { earlier = c.earlier.items; latest = c.latest } };
}

impl Connections {
    ghost use Rattle.tide_edge.specs.Doors.{
      no_connections,
      connections_after_next,
      connection_after_read,
      connection_after_write,
      change_latest,
    };

    /// Returns the record in which no connection was accepted.
    pub(crate) fn none() -> Connections
        ensures { result ≡ no_connections }
    {
        Connections {
            earlier: Log::new(),
            latest: None,
        }
    }

    /// Records that another connection was accepted.
    pub(crate) fn open(&mut self)
        ensures { self.new ≡ connections_after_next (Ok true) self.old }
    {
        if let Some(latest) = &self.latest {
            self.earlier = self.earlier.then(slice::from_ref(latest));
        }
        self.latest = Some(OneConnection::new());
    }

    /// Records a call of `read` on the latest connection: the buffer after the call, and the
    /// outcome.
    pub(crate) fn read(&mut self, buffer: &[u8], outcome: &Result<usize, Failed>)
        requires { IfOk outcome.now (λ count. count ≤ length buffer.now) }
        ensures { self.new ≡ change_latest (connection_after_read outcome.now buffer.now) self.old }
    {
        if let Some(latest) = &mut self.latest {
            latest.read(buffer, outcome);
        }
    }

    /// Records a call of `write` of `piece` on the latest connection, with its outcome.
    pub(crate) fn write(&mut self, piece: &[u8], outcome: &Result<usize, Failed>)
        requires { IfOk outcome.now (λ count. count ≤ length piece.now) }
        ensures { self.new ≡ change_latest (connection_after_write outcome.now piece.now) self.old }
    {
        if let Some(latest) = &mut self.latest {
            latest.write(piece, outcome);
        }
    }
}
