//! The origin of a curve, for contracts only.

ghost use Rattle.std.specs.Prelude.{◌≡◌};
ghost use Rattle.std.specs.Borrow.{ftrue};
ghost use Rattle.harmonics_book.specs.declared.book.Book.{Book};
ghost use Rattle.harmonics_book.specs.declared.book.Station.{Station};

use harmonics_book::{Book, Station};
use std::marker::Model;

/// The book (harmonics file) and the station of a curve, for contracts only: at run time it is empty.
#[derive(Drop)]
pub struct Origin {
    pub ghost book: { Book },
    pub ghost station: { Station },
}

impl Model for Origin {
    ghost also_owns = { λ _. ftrue };
}

impl Origin {
    /// Returns the harmonics file `_book` and its station `_station`, for contracts only; at run time
    /// the result is empty.
    pub(crate) fn of(_book: &Book, _station: &Station) -> Origin
        ensures { (result.book ≡ _book.now) × (result.station ≡ _station.now) }
    {
        Origin {}
    }
}
