//! The replies of a door in memory.

ghost use Rattle.std.specs.Prelude.{◌≡◌, ◌<◌, ◌≤◌, ◌+◌, ◌-◌, ◌++◌, [], ◌∷◌, All, length, Some, IfOk, MatchOption, slice_get};
ghost use Rattle.tide_edge.specs.Doors.{append_to_last};

use crate::unread_bytes::rest_from;
use std::alloc::{AllocError, Global};
use std::marker::Model;

/// The replies of a door in memory, one after the other in one list of bytes. Its memory was
/// allocated for all replies at once.
#[derive(Drop)]
pub(crate) struct Replies {
    bytes: Vec<u8>,
    starts: Vec<usize>,
    capacity: u64,
    more: usize,
}

impl Model for Replies {
    ghost use Rattle.std.specs.Prelude.{◌≤◌, ◌+◌, All, length, vec_len, vec_capacity};
    ghost use Rattle.tide_edge.specs.Workings.Lines.{HeldReplies, parts};

    ghost Value = { HeldReplies };

    ghost view = { λ r. record { replies = parts r.starts.items r.bytes.items; capacity = r.capacity; more = r.more } };

    ghost invariant = { λ r. (vec_len r.bytes + r.capacity ≤ vec_capacity r.bytes)
        × (vec_len r.starts + r.more ≤ vec_capacity r.starts)
        × All (λ start. start ≤ length r.bytes.items) r.starts.items };
}

impl Replies {
    /// Returns an empty list of replies, with memory for `more` replies that have `capacity` bytes
    /// in all.
    ///
    /// # Errors
    /// [`AllocError`] if memory runs out.
    pub(crate) fn new(alloc: Global, capacity: u64, more: usize) -> Result<Replies, AllocError>
        ensures { IfOk result (λ replies. replies ≡ record { replies = []; capacity = capacity; more = more }) }
    {
        Ok(Replies {
            bytes: Vec::with_capacity(alloc, capacity as usize)?,
            starts: Vec::with_capacity(alloc, more)?,
            capacity,
            more,
        })
    }

    /// Begins another reply, without any byte.
    pub(crate) fn begin(&mut self)
        requires { 0 < self.old.more }
        ensures { self.new ≡ record {
          replies = self.old.replies ++ [] ∷ [];
          capacity = self.old.capacity;
          more = self.old.more - 1;
        } }
    {
        self.more -= 1;
        self.starts.push(self.bytes.len()).unwrap();
    }

    /// Appends `piece` to the reply that was begun last. The piece has at most as many bytes as the
    /// replies can still grow by.
    pub(crate) fn append(&mut self, piece: &[u8])
        requires { length piece.now ≤ self.old.capacity }
        ensures { self.new ≡ record {
          replies = append_to_last self.old.replies piece.now;
          capacity = self.old.capacity - length piece.now;
          more = self.old.more;
        } }
    {
        self.capacity -= piece.len() as u64;
        self.bytes.extend_from_slice(piece).unwrap();
    }

    /// Returns the number of bytes that the replies can still grow by.
    pub(crate) fn capacity(&self) -> u64
        ensures { result ≡ self.now.capacity }
    {
        self.capacity
    }

    /// Returns the reply with index `index`, counted from 0, or `None` if at most `index` replies were
    /// begun.
    pub(crate) fn get(&self, index: u64) -> Option<&[u8]>
        ensures { MatchOption result (length self.now.replies ≤ index)
            (λ reply. slice_get self.now.replies index ≡ Some reply.now) }
    {
        let at = index as usize;
        if at >= self.starts.len() {
            return None;
        }
        let end = if at + 1 < self.starts.len() {
            self.starts[at + 1]
        } else {
            self.bytes.len()
        };
        Some(rest_from(&self.bytes[..end], self.starts[at]))
    }
}
