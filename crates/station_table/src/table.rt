//! The list of the subordinate stations of a table.

ghost use Rattle.std.specs.Prelude.{◌≡◌, ◌+◌, ◌^◌, ◌<◌, [], ◌∷◌, ◌++◌, length, OnOk};
ghost use Rattle.station_table.specs.Offsets.{IsOffsets, IsTable};

use crate::offsets::Offsets;
use std::alloc::{AllocError, Global};
use std::marker::Model;

/// The subordinate stations of a file of offsets, in the file's order: fewer than 2^32 rows, each
/// with valid names and with offsets in their ranges. In contracts its value is the list of the
/// rows.
#[derive(Drop)]
pub struct OffsetTable {
    rows: Vec<Offsets>,
}

impl Model for OffsetTable {
    ghost use Rattle.std.specs.Prelude.{List};
    ghost use Rattle.station_table.specs.declared.offsets.Offsets.{Offsets};

    ghost Value = { List Offsets };

    ghost use Rattle.station_table.specs.Offsets.{IsTable};

    ghost view = { λ t. t.rows.items };

    ghost invariant = { λ t. IsTable t.rows.items };
}

impl OffsetTable {
    /// Returns a table without rows. It doesn't allocate.
    pub fn new(alloc: Global) -> OffsetTable
        ensures { result ≡ [] }
    {
        OffsetTable {
            rows: Vec::new(alloc),
        }
    }

    /// Appends `row`, with valid names and offsets in their ranges, as the last row. The caller
    /// ensures that the table then has fewer than 2^32 rows.
    ///
    /// # Errors
    /// - [`AllocError`]: when memory runs out.
    pub(crate) fn push(&mut self, row: Offsets) -> Result<(), AllocError>
        requires count_bound { length self.old + 1 < 2 ^ 32 }
        requires valid { IsOffsets row }
        ensures { OnOk result (self.new ≡ self.old ++ row ∷ []) }
    {
        self.rows.push(row)?;
        Ok(())
    }

    /// Does nothing at run time. A caller gets from its contract that there are fewer than 2^32
    /// rows, and that the names of each row are valid and its offsets in their ranges.
    pub fn ranges_hold(&self)
        ensures { IsTable self.now }
    {
        let _rows = &self.rows;
    }

    /// Borrows the rows as a slice, in the file's order.
    pub fn as_slice(&self) -> &[Offsets]
        ensures exact { result.now ≡ self.now }
        ensures valid { IsTable self.now }
    {
        self.rows.as_slice()
    }
}
