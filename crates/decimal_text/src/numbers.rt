//! A list of whole numbers that can't be changed.

ghost use Rattle.std.specs.Prelude.{◌≡◌, List, ℤ, IfOk};

use std::alloc::AllocError;
use std::marker::Model;

/// A list of whole numbers of 64 bits, which can't be changed. In contracts its value is the list
/// of these numbers.
#[derive(Clone, Debug, Drop)]
pub struct Numbers {
    items: Vec<i64>,
}

impl Model for Numbers {
    ghost Value = { List ℤ };

    ghost view = { λ l. l.items.items };
}

impl Numbers {
    /// Returns the list with the numbers in `items`, which are moved into it. It doesn't allocate.
    /// In contracts `items.items` is the list of the items in the vector.
    pub fn from_vec(items: Vec<i64>) -> Numbers
        ensures { result ≡ items.items }
    {
        Numbers { items }
    }

    /// Borrows the numbers, in order, as a slice.
    pub fn as_slice(&self) -> &[i64]
        ensures { result.now ≡ self.now }
    {
        self.items.as_slice()
    }

    /// Returns a second list with the same numbers.
    ///
    /// # Errors
    /// [`AllocError`]: if memory runs out.
    pub fn copy(&self) -> Result<Numbers, AllocError>
        ensures { IfOk result (λ l. l ≡ self.now) }
    {
        self.clone()
    }
}
