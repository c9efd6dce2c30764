//! The unread bytes of a connection in memory.

ghost use Rattle.std.specs.Prelude.{◌≡◌, ◌↔◌, ◌<◌, ◌++◌, IsTrue, [], length, min, take, drop};
ghost use Rattle.std.specs.List.{concat};
ghost use Rattle.tide_edge.specs.Doors.{first_or_empty, left_after};
ghost use Rattle.tide_edge.specs.Memory.{are_pieces};

use crate::unread_bytes::rest_from;
use decimal_text::Bytes;
use std::collections::VecDeque;
use std::marker::Model;

/// The unread bytes of a connection in memory, in the pieces (parts) in which they arrive. No piece
/// is empty.
#[derive(Drop)]
pub(crate) struct Pieces {
    pieces: VecDeque<Bytes>,
    at: usize,
}

impl Model for Pieces {
    ghost use Rattle.std.specs.Prelude.{List, ℕ, IsTrue};
    ghost use Rattle.tide_edge.specs.Memory.{are_pieces};
    ghost use Rattle.tide_edge.specs.Workings.Lines.{pieces_from};

    ghost Value = { List (List ℕ) };

    ghost view = { λ p. pieces_from p.at p.pieces.items };

    ghost invariant = { λ p. IsTrue (are_pieces (pieces_from p.at p.pieces.items)) };
}

impl Pieces {
    /// Returns the bytes of a connection of which all `pieces` are unread; no piece is empty.
    pub(crate) fn new(pieces: Vec<Bytes>) -> Pieces
        requires { IsTrue (are_pieces pieces.items) }
        ensures { result ≡ pieces.items }
    {
        Pieces {
            pieces: VecDeque::from(pieces),
            at: 0,
        }
    }

    /// Copies the next bytes of the first piece into the first bytes of `buffer`, which isn't
    /// empty, and returns their count: 0 if no byte is unread.
    pub(crate) fn read(&mut self, buffer: &mut [u8]) -> usize
        requires { 0 < length buffer.old }
        ensures end { (result ≡ 0) ↔ (concat self.old ≡ []) }
        ensures count { result ≡ min (length buffer.old) (length (first_or_empty self.old)) }
        ensures after { self.new ≡ left_after result self.old }
        ensures filled { buffer.new ≡ take result (concat self.old) ++ drop result buffer.old }
    {
        let Some(piece) = self.pieces.front() else {
            return 0;
        };
        let unread_bytes = rest_from(piece.as_slice(), self.at);
        let count = buffer.len().min(unread_bytes.len());
        buffer[..count].copy_from_slice(&unread_bytes[..count]);
        if count == unread_bytes.len() {
            self.pieces.pop_front();
            self.at = 0;
        } else {
            self.at += count;
        }
        count
    }
}
