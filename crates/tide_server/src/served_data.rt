//! The data that a server serves.

ghost use Rattle.std.specs.Prelude.{◌≡◌};
ghost use Rattle.harmonics_book.specs.Books.{IsBook};

use harmonics_book::Book;
use station_table::OffsetTable;
use std::marker::Model;
use tide_answer::StationData;

/// The data of a server: the harmonic constants and the subordinate stations that it answers with, and
/// the port at which it listens.
#[derive(Drop)]
pub struct ServedData {
    /// The harmonic constants with which the server answers.
    pub book: Book,
    /// The table of subordinate stations. It has no rows if the arguments name no table.
    pub table: OffsetTable,
    /// The port of 127.0.0.1 at which the server listens.
    pub port: u16,
}

/// The data of a server, with harmonic constants that are proved to be in the ranges of a harmonics
/// file. In contracts its value is the data.
#[derive(Drop)]
pub struct ValidServedData {
    served_data: ServedData,
}

impl Model for ValidServedData {
    ghost use Rattle.tide_server.specs.declared.served_data.ServedData.{ServedData};
    ghost use Rattle.harmonics_book.specs.Books.{IsBook};

    ghost Value = { ServedData };

    ghost view = { λ valid. valid.served_data };

    ghost invariant = { λ valid. IsBook valid.served_data.book };
}

impl ValidServedData {
    /// Returns `served_data` as valid data. The caller proves that its harmonic constants are in the
    /// ranges of a harmonics file, as all constants that were read from a file are.
    pub fn new(served_data: ServedData) -> ValidServedData
        requires { IsBook served_data.book }
        ensures { result ≡ served_data }
    {
        ValidServedData { served_data }
    }

    /// Returns the stations that can be requested from the server, borrowed.
    pub fn stations(&self) -> StationData<'_>
        ensures { result ≡ record { book = self.now.book; table = self.now.table } }
    {
        StationData::new(&self.served_data.book, &self.served_data.table)
    }

    /// Returns the port of 127.0.0.1 at which the server listens.
    pub fn port(&self) -> u16
        ensures { result ≡ self.now.port }
    {
        self.served_data.port
    }
}
