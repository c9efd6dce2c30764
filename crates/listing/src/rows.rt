//! A list of levels.

ghost use Rattle.std.specs.Prelude.{◌≡◌};

use crate::row::Row;
use std::marker::Model;

/// The rows of a listing of levels, in the order in which they are listed: minutes with a station's
/// levels. In contracts the value is the list of the rows.
#[derive(Drop)]
pub struct Rows {
    items: Vec<Row>,
}

impl Model for Rows {
    ghost use Rattle.std.specs.Prelude.{List};
    ghost use Rattle.listing.specs.declared.row.Row.{Row};

    ghost Value = { List Row };

    ghost view = { λ l. l.items.items };
}

impl Rows {
    /// Returns `items` as the rows of a listing, in the same order. It doesn't allocate.
    pub fn from_vec(items: Vec<Row>) -> Rows
        ensures { result ≡ items.items }
    {
        Rows { items }
    }

    /// Borrows the rows as a slice, in the order of the listing.
    pub fn as_slice(&self) -> &[Row]
        ensures { result.now ≡ self.now }
    {
        self.items.as_slice()
    }
}
