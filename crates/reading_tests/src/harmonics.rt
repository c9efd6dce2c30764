//! Files of harmonic constants.

ghost use Rattle.std.specs.Prelude.{◌≡◌, []};

use crate::asserts::assert_holds;
use decimal_text::Text;
use harmonics_book::{Book, Constituent, Constituents, Station, Stations, Units};
use harmonics_text::{BookFault, BookReader, Why, read_book, worked_files, worked_lines};
use std::alloc::{AllocError, Global};

/// A file as people write it: ends of lines of two bytes, tabs, comments between, ISO 8859-1.
const REAL: [u8; 227] =
    *b"# Constituents\r\n2\r\nM2 28.9841042\r\n  S2\t30.0000000  \r\n\r\n2000\r\n1\r\nM2\r\n120.50\r\n# between\r\n\
    S2\r\n0.00\r\n*END*\r\n1\r\nM2\r\n0.9850\r\nS2\r\n1.0000\r\n*END*\r\n# A station\r\nPort\xe9, Bay\r\n\
    -5:00 :America/New_York\r\n2.5 feet\r\nM2 1.234 45.0\r\nS2 0.4 300.0\r\n";

fn has_years(book: &Book) -> bool {
    book.first_year == 2000
        && book.years == 1
        && book.angles.as_slice() == [1_205_000_000, 0].as_slice()
        && book.factors.as_slice() == [985_000, 1_000_000].as_slice()
}

fn is_constituent(constituent: &Constituent) -> bool {
    match constituent.name.as_str() {
        "M2" => constituent.speed == 289_841_042,
        name => name == "S2" && constituent.speed == 300_000_000,
    }
}

fn has_head(station: &Station) -> bool {
    station.name.as_str() == "Port\u{e9}, Bay"
        && station.meridian == -300
        && station.zone.as_str() == "America/New_York"
        && station.datum == 2_500_000
        && station.units == Units::Feet
}

fn has_waves(station: &Station) -> bool {
    station.amplitude.as_slice() == [1_234_000, 400_000].as_slice()
        && station.epoch.as_slice() == [450_000_000, 3_000_000_000].as_slice()
}

fn has_values(book: &Book) -> bool {
    has_years(book)
        && book.constituents.as_slice().len() == 2
        && book
            .constituents
            .as_slice()
            .iter()
            .all(|it| is_constituent(it))
        && book.stations.as_slice().len() == 1
        && book
            .stations
            .as_slice()
            .iter()
            .all(|it| has_head(it) && has_waves(it))
}

#[test]
fn a_file_as_people_write_it(rt: HostRuntime) -> Result<(), BookFault> {
    let book = read_book(rt.alloc(), &REAL)?;
    assert_holds(&rt, has_values(&book), "the file");
    Ok(())
}

/// Passes a file in two pieces to `reader`.
fn feed_pieces(reader: &mut BookReader) -> Result<(), BookFault>
    requires { reader.old.bytes ≡ [] }
{
    reader.feed(b"1\nS2 30\n1999\n1\nS2\n0\n*END*\n1\nS2\n1\n*EN")?;
    reader.feed(b"D*\nPier\n0:00 :UTC\n0 feet\nS2 1 0\n")
}

/// Returns the number of stations of the file in two pieces.
fn stations_of_pieces(alloc: Global) -> Result<usize, BookFault> {
    let mut reader = BookReader::new(alloc)?;
    let fed = feed_pieces(&mut reader);
    Ok(fed.and(reader.finish())?.stations.as_slice().len())
}

#[test]
fn a_file_comes_in_pieces(rt: HostRuntime) {
    assert!(rt; stations_of_pieces(rt.alloc()) == Ok(1));
}

/// Returns the length of a list of one constituent.
fn length_of_one(alloc: Global) -> Result<usize, AllocError> {
    let name = Text::from_str(alloc, "M2")?;
    let speed = 289_841_042;
    let items = vec![in alloc; Constituent { name, speed }]?;
    Ok(Constituents::from_vec(items).as_slice().len())
}

fn length_of_none(alloc: Global) -> usize {
    Stations::from_vec(Vec::new(alloc)).as_slice().len()
}

#[test]
fn lists_of_vectors(rt: HostRuntime) {
    assert!(rt; length_of_one(rt.alloc()) == Ok(1));
    assert!(rt; length_of_none(rt.alloc()) == 0);
}

#[test]
fn reasons_in_words(rt: HostRuntime) {
    assert!(rt; is_worded(Why::BadCount, "bad count"));
    assert!(rt; is_worded(Why::LineTooLong, "line too long"));
    assert!(rt; Why::LineTooLong.number() == 13);
}

fn is_worded(why: Why, text: &str) -> bool {
    why.text() == text
}

#[test]
fn worked_rows_stand(_rt: HostRuntime) {
    worked_lines();
    worked_files();
}
