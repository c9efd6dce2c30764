//! The lists of a book's constituents and of its stations.

ghost use Rattle.std.specs.Prelude.{◌≡◌, [], ◌∷◌, ◌++◌, OnOk};

use crate::book::{Constituent, Station};
use std::alloc::{AllocError, Global};
use std::marker::Model;

/// A growing list of constituents, in the order of the file. In contracts its value is the list of
/// its items.
#[derive(Debug, Drop)]
pub struct Constituents {
    items: Vec<Constituent>,
}

impl Model for Constituents {
    ghost use Rattle.std.specs.Prelude.{List};
    ghost use Rattle.harmonics_book.specs.declared.book.Constituent.{Constituent};

    ghost Value = { List Constituent };

    ghost view = { λ l. l.items.items };
}

impl Constituents {
    /// Returns the list with the constituents in `items`, which are moved into it. It doesn't
    /// allocate. In contracts `items.items` is the list of the items in the vector.
    pub fn from_vec(items: Vec<Constituent>) -> Constituents
        ensures { result ≡ items.items }
    {
        Constituents { items }
    }

    /// Returns an empty list. It doesn't allocate.
    pub fn empty(alloc: Global) -> Constituents
        ensures { result ≡ [] }
    {
        Constituents {
            items: Vec::new(alloc),
        }
    }

    /// Appends `constituent` to the list.
    ///
    /// # Errors
    /// [`AllocError`]: if memory runs out.
    pub fn push(&mut self, constituent: Constituent) -> Result<(), AllocError>
        ensures { OnOk result (self.new ≡ self.old ++ constituent ∷ []) }
    {
        self.items.push(constituent)?;
        Ok(())
    }

    /// Borrows the constituents, in order, as a slice.
    pub fn as_slice(&self) -> &[Constituent]
        ensures { result.now ≡ self.now }
    {
        self.items.as_slice()
    }
}

/// A growing list of stations, in the order of the file. In contracts its value is the list of its
/// items.
#[derive(Debug, Drop)]
pub struct Stations {
    items: Vec<Station>,
}

impl Model for Stations {
    ghost use Rattle.std.specs.Prelude.{List};
    ghost use Rattle.harmonics_book.specs.declared.book.Station.{Station};

    ghost Value = { List Station };

    ghost view = { λ l. l.items.items };
}

impl Stations {
    /// Returns the list with the stations in `items`, which are moved into it. It doesn't allocate.
    /// In contracts `items.items` is the list of the items in the vector.
    pub fn from_vec(items: Vec<Station>) -> Stations
        ensures { result ≡ items.items }
    {
        Stations { items }
    }

    /// Returns an empty list. It doesn't allocate.
    pub fn empty(alloc: Global) -> Stations
        ensures { result ≡ [] }
    {
        Stations {
            items: Vec::new(alloc),
        }
    }

    /// Appends `station` to the list.
    ///
    /// # Errors
    /// [`AllocError`]: if memory runs out.
    pub fn push(&mut self, station: Station) -> Result<(), AllocError>
        ensures { OnOk result (self.new ≡ self.old ++ station ∷ []) }
    {
        self.items.push(station)?;
        Ok(())
    }

    /// Borrows the stations, in order, as a slice.
    pub fn as_slice(&self) -> &[Station]
        ensures { result.now ≡ self.now }
    {
        self.items.as_slice()
    }
}
