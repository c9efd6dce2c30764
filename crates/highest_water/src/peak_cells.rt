//! A list of the cells of a highest water.

ghost use Rattle.std.specs.Prelude.{◌≡◌};

use crate::peak_cell::PeakCell;
use std::marker::Model;

/// The cells that show a highest water, in order of time and without gaps: each is some consecutive
/// minutes, none of them higher than the highest water. In contracts its value is the list of the
/// cells.
#[derive(Drop)]
pub struct PeakCells {
    items: Vec<PeakCell>,
}

impl Model for PeakCells {
    ghost use Rattle.std.specs.Prelude.{List};
    ghost use Rattle.highest_water.specs.declared.peak_cell.PeakCell.{PeakCell};

    ghost Value = { List PeakCell };

    ghost view = { λ l. l.items.items };
}

impl PeakCells {
    /// Returns the list of the cells in `items`. It doesn't allocate.
    pub fn from_vec(items: Vec<PeakCell>) -> PeakCells
        ensures { result ≡ items.items }
    {
        PeakCells { items }
    }

    /// Borrows the cells as a slice.
    pub fn as_slice(&self) -> &[PeakCell]
        ensures { result.now ≡ self.now }
    {
        self.items.as_slice()
    }
}
