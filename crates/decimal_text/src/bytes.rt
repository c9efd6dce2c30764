//! A list of bytes that can't be changed.

ghost use Rattle.std.specs.Prelude.{◌≡◌, List, ℕ, IfOk};

use std::alloc::AllocError;
use std::marker::Model;

/// A list of bytes, which can't be changed. In contracts its value is the list of the bytes as
/// numbers, each from 0 to 255.
#[derive(Clone, Drop)]
pub struct Bytes {
    items: Vec<u8>,
}

impl Model for Bytes {
    ghost Value = { List ℕ };

    ghost view = { λ l. l.items.items };
}

impl Bytes {
    /// Returns the list with the bytes in `items`, which are moved into it. It doesn't allocate.
    /// In contracts `items.items` is the list of the items in the vector.
    pub fn from_vec(items: Vec<u8>) -> Bytes
        ensures { result ≡ items.items }
    {
        Bytes { items }
    }

    /// Borrows the bytes, in order, as a slice.
    pub fn as_slice(&self) -> &[u8]
        ensures { result.now ≡ self.now }
    {
        self.items.as_slice()
    }

    /// Returns a second list with the same bytes.
    ///
    /// # Errors
    /// [`AllocError`]: if memory runs out.
    pub fn copy(&self) -> Result<Bytes, AllocError>
        ensures { IfOk result (λ l. l ≡ self.now) }
    {
        self.clone()
    }
}
