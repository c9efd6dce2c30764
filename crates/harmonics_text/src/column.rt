//! A growing list of the numbers of a table or a station.

ghost use Rattle.std.specs.Prelude.{◌≡◌, [], ◌∷◌, ◌++◌, length, pos, replicate, IfOk, OnOk};

use decimal_text::Numbers;
use std::alloc::{AllocError, Global};
use std::marker::Model;

/// A growing list of whole numbers: the values read so far of a table, or the amplitudes or the
/// epochs read so far of a station. In contracts its value is the list of these numbers.
#[derive(Drop)]
pub struct Column {
    items: Vec<i64>,
}

impl Model for Column {
    ghost use Rattle.std.specs.Prelude.{List, ℤ};

    ghost Value = { List ℤ };

    ghost view = { λ c. c.items.items };
}

impl Column {
    /// Returns an empty list. It doesn't allocate.
    pub fn new(alloc: Global) -> Column
        ensures { result ≡ [] }
    {
        Column {
            items: Vec::new(alloc),
        }
    }

    /// Returns an empty list with memory for `count` numbers, so that appending them need not
    /// allocate.
    ///
    /// # Errors
    /// [`AllocError`]: if memory runs out.
    pub fn with_room(alloc: Global, count: usize) -> Result<Column, AllocError>
        ensures { IfOk result (λ c. c ≡ []) }
    {
        Ok(Column {
            items: Vec::with_capacity(alloc, count)?,
        })
    }

    /// Returns the number of items in the list.
    pub fn len(&self) -> usize
        ensures { result ≡ length self.now }
    {
        self.items.len()
    }

    /// Appends `value`.
    ///
    /// # Errors
    /// [`AllocError`]: if memory runs out.
    pub fn push(&mut self, value: i64) -> Result<(), AllocError>
        ensures { OnOk result (self.new ≡ self.old ++ value ∷ []) }
    {
        self.items.push(value)?;
        Ok(())
    }

    /// Appends `count` zeros.
    ///
    /// # Errors
    /// [`AllocError`]: if memory runs out, or if the list would have more items than a `usize`
    /// counts.
    pub fn push_zeros(&mut self, count: usize) -> Result<(), AllocError>
        ensures { OnOk result (self.new ≡ self.old ++ replicate count (pos 0)) }
    {
        let Some(len) = self.items.len().checked_add(count) else {
            return Err(AllocError);
        };
        self.items.resize(len, 0)
    }

    /// Returns the same numbers as [`Numbers`], a list that doesn't grow. It doesn't allocate.
    pub fn into_numbers(self) -> Numbers
        ensures { result ≡ self }
    {
        Numbers::from_vec(self.items)
    }
}
