//! The stations that can be requested.

ghost use Rattle.std.specs.Prelude.{◌≡◌};
ghost use Rattle.harmonics_book.specs.Books.{IsBook};

use harmonics_book::{Book, ValidBook};
use station_table::OffsetTable;
use std::marker::Model;

/// The stations that can be requested, borrowed: the stations of a valid book of harmonic constants, and
/// the subordinate stations of a table of offsets. In contracts its value is this book and this table.
#[derive(Drop)]
pub struct StationData<'a> {
    book: ValidBook<'a>,
    table: &'a OffsetTable,
}

impl<'a> Model for StationData<'a> {
    ghost use Rattle.station_span.specs.Sites.{BookWithTable};

    ghost Value = { BookWithTable };

    ghost view = { λ s. record { book = s.book; table = s.table.now } };
}

impl<'a> StationData<'a> {
    /// Returns the stations of `book` together with the subordinate stations of `table`. The caller
    /// proves that the counts, names and values of `book` are in the ranges of a harmonics file.
    pub fn new(book: &'a Book, table: &'a OffsetTable) -> StationData<'a>
        requires { IsBook book.now }
        ensures { result ≡ record { book = book.now; table = table.now } }
    {
        StationData {
            book: ValidBook::new(book),
            table,
        }
    }

    /// Borrows the book of harmonic constants, which has the reference stations.
    pub fn book(&self) -> &ValidBook<'a>
        ensures { result.now ≡ self.now.book }
    {
        &self.book
    }

    /// Borrows the table of offsets, which has the subordinate stations.
    pub fn table(&self) -> &'a OffsetTable
        ensures { result.now ≡ self.now.table }
    {
        self.table
    }
}
