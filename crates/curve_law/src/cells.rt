//! A list of cells.

ghost use Rattle.std.specs.Prelude.{◌≡◌};

use crate::cell::Cell;
use std::marker::Model;

/// A list of cells of one track, in order of time and without gaps. A cell is some consecutive
/// minutes with the claim that no event is after them, or one minute with the event after it. In
/// contracts its value is the list of the cells.
#[derive(Drop)]
pub struct Cells {
    items: Vec<Cell>,
}

impl Model for Cells {
    ghost use Rattle.std.specs.Prelude.{List};
    ghost use Rattle.curve_law.specs.declared.cell.Cell.{Cell};

    ghost Value = { List Cell };

    ghost view = { λ l. l.items.items };
}

impl Cells {
    /// Returns the list of the cells in `items`. It doesn't allocate.
    pub fn from_vec(items: Vec<Cell>) -> Cells
        ensures { result ≡ items.items }
    {
        Cells { items }
    }

    /// Borrows the cells as a slice.
    pub fn as_slice(&self) -> &[Cell]
        ensures { result.now ≡ self.now }
    {
        self.items.as_slice()
    }
}
