//! The request of the open connection.

use crate::limits::LONGEST;
use std::alloc::{AllocError, Global};
use std::marker::Model;
use tide_edge::{Door, Failed, PIECE};

/// The bytes received of a request, in memory that is allocated once for the longest request, of
/// 4,202,496 bytes. In contracts its value is the bytes.
#[derive(Drop)]
pub(crate) struct Request {
    bytes: Vec<u8>,
    piece: Vec<u8>,
}

impl Model for Request {
    ghost use Rattle.std.specs.Prelude.{◌≡◌, ◌+◌, ◌≤◌, ℕ, List, vec_len, vec_capacity};
    ghost use Rattle.tide_edge.specs.declared.files.piece.TheConstants.{PIECE};
    ghost use Rattle.tide_server.specs.declared.limits.TheConstants.{LONGEST};

    ghost Value = { List ℕ };

    ghost view = { λ r. r.bytes.items };

    ghost invariant = { λ r. (LONGEST + PIECE ≤ vec_capacity r.bytes) × (vec_len r.piece ≡ PIECE) };
}

impl Request {
    ghost use Rattle.std.specs.Prelude.{◌≡◌, ◌+◌, ◌<◌, ◌≤◌, ◌++◌, ℕ, List, IsTrue, [], length, take, IfOk};
    ghost use Rattle.tide_edge.specs.declared.files.piece.TheConstants.{PIECE};
    ghost use Rattle.tide_edge.specs.Doors.{door_after_read};
    ghost use Rattle.tide_server.specs.declared.limits.TheConstants.{LONGEST};

    /// Returns a request without bytes, with memory for the longest request, of 4,202,496 bytes.
    pub(crate) fn new(alloc: Global) -> Result<Request, AllocError>
        ensures { IfOk result (λ request. request ≡ []) }
    {
        Ok(Request {
            bytes: Vec::with_capacity(alloc, LONGEST + PIECE)?,
            piece: vec![in alloc; 0; PIECE]?,
        })
    }

    /// Borrows the bytes received.
    pub(crate) fn as_slice(&self) -> &[u8]
        ensures { result.now ≡ self.now }
    {
        self.bytes.as_slice()
    }

    /// Removes all bytes, for the next request.
    pub(crate) fn clear(&mut self)
        ensures { self.new ≡ [] }
    {
        self.bytes.clear();
    }

    /// Reads the next bytes of the open connection, at most 65,536 of them, and appends them. Returns
    /// their number, which is 0 at the end of the connection. It doesn't allocate.
    ///
    /// # Errors
    /// [`Failed`] if the read failed.
    pub(crate) fn read_more<D: Door>(&mut self, door: &mut D) -> Result<usize, Failed>
        requires length_bound { length self.old < LONGEST }
        requires open { IsTrue (D.state door.old).listener_state.is_open }
        ensures after { (buffer : List ℕ) × (D.state door.new ≡ door_after_read result buffer (D.state door.old))
            × IfOk result (λ count. self.new ≡ self.old ++ take count buffer) }
        ensures within { IfOk result (λ count. count ≤ PIECE) }
        ensures longer { IfOk result (λ count. length self.new ≡ length self.old + count) }
    {
        let count = door.read(&mut self.piece)?;
        self.bytes.extend_from_slice(&self.piece[..count]).unwrap();
        Ok(count)
    }
}
