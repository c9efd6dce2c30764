//! The contents of a request's files.

use decimal_text::Bytes;
use harmonics_book::Book;
use station_table::OffsetTable;
use zone_time::Zone;

/// The contents of all files that a request names.
#[derive(Drop)]
pub struct Materials {
    /// The harmonic constants, from the harmonics file.
    pub book: Book,
    /// The subordinate stations, from the table of offsets. There are no rows if the request names no
    /// table.
    pub table: OffsetTable,
    /// The zone in which the answer shows local times. It is from a zone file if the request names one.
    pub zone: Zone,
    /// The text of the certificate, at most 400,000,000 bytes. It is empty if the request names no
    /// certificate.
    pub certificate: Bytes,
}
