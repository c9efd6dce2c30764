//! Receivers of a file's bytes.

ghost use Rattle.std.specs.Prelude.{◌≡◌, ◌+◌, ◌≤◌, ◌++◌, ℕ, List, length, OnOk};

use std::alloc::AllocError;

/// An object that receives the bytes of a file while it is read, such as a list or a parser.
///
/// In contracts, `accepted` is the list of the bytes received, and `most` the greatest number of
/// bytes that the object can receive, which no call changes.
pub trait Receiver {
    ghost accepted: { Self → List ℕ };

    ghost most: { Self → ℕ };

    /// Receives `piece`, the next bytes of the file. With them, at most `most` bytes were received.
    ///
    /// # Errors
    /// [`AllocError`] if memory runs out. The contract then doesn't say which bytes were received.
    fn take(&mut self, piece: &[u8]) -> Result<(), AllocError>
        requires { length (accepted self.old) + length piece.now ≤ most self.old }
        ensures accepted { OnOk result (accepted self.new ≡ accepted self.old ++ piece.now) }
        ensures most { most self.new ≡ most self.old };
}
