//! The examples of doc comments, in the same words.

use arrayvec::ArrayString;
use decimal_text::{DecimalFault, Text, Words, digits, read, write};
use harmonics_text::{BookFault, Why, read_book};
use question::{AskFault, Key, pairs_of_words, read_question};
use station_table::{FindFault, OffsetTable, find, read_offsets};
use std::test::Fail;
use zone_time::{ZoneFault, read_moment, read_zone};

#[test]
fn decimals(rt: HostRuntime) {
    assert_eq!(rt; read(b"-1.50", 2), Ok(-150));
    assert_eq!(rt; read(b"1.234", 2), Err(DecimalFault::TooFine));
}

#[test]
fn whole_numbers(rt: HostRuntime) {
    assert_eq!(rt; digits(b"0019", 4), Some(19));
    assert_eq!(rt; digits(b"+19", 4), None);
}

#[test]
fn written_decimals(rt: HostRuntime) {
    let mut out = ArrayString::new();
    write(-5, 2, &mut out);
    assert_eq!(rt; out.as_str(), "-0.05");
}

#[test]
fn books(rt: HostRuntime) -> Result<(), Fail> {
    let text =
        b"1\nS2 30\n1999\n1\nS2\n0\n*END*\n1\nS2\n1\n*END*\nPier\n0:00 :UTC\n0 feet\nS2 1 0\n";
    let book = read_book(rt.alloc(), text)?;
    assert_eq!(rt; book.stations.as_slice().len(), 1);
    let why = Why::BadNumber;
    let fault = read_book(rt.alloc(), b"1\nS2 30,0\n").err();
    assert_eq!(rt; fault, Some(BookFault::At { line: 2, why }));
    Ok(())
}

#[test]
fn offsets(rt: HostRuntime) -> Result<(), Fail> {
    let text = b"name,reference,high_add,low_add,high_times,low_times,high_plus,low_plus\n\
        Dock,Pier,0:30,-0:10,1.1,0.9,0.1,0\n";
    let table = read_offsets(rt.alloc(), text)?;
    assert_eq!(rt; table.as_slice().len(), 1);
    Ok(())
}

#[test]
fn bases(rt: HostRuntime) {
    let text =
        b"1\nS2 30\n1999\n1\nS2\n0\n*END*\n1\nS2\n1\n*END*\nPier\n0:00 :UTC\n0 feet\nS2 1 0\n";
    let book = read_book(rt.alloc(), text).expect(&rt, "a book");
    let table = OffsetTable::new(rt.alloc());
    let pier = Text::from_str(rt.alloc(), "Pier").expect(&rt, "a name");
    let basis = find(&book, &table, &pier);
    assert_eq!(rt; basis.map(|basis| basis.station), Ok(0));
    let quay = Text::from_str(rt.alloc(), "Quay").expect(&rt, "a name");
    let fault = find(&book, &table, &quay).err();
    assert_eq!(rt; fault, Some(FindFault::NoStation));
}

#[test]
fn moments(rt: HostRuntime) {
    assert_eq!(rt; read_moment(b"2000-01-10T00:00Z"), Some(15_791_040));
    assert_eq!(rt; read_moment(b"2001-02-29T00:00Z"), None);
}

#[test]
fn zone_files(rt: HostRuntime) {
    let fault = read_zone(rt.alloc(), b"no zone").err();
    assert_eq!(rt; fault, Some(ZoneFault::BadZone));
}

#[test]
fn questions(rt: HostRuntime) {
    let mut words = Vec::new(rt.alloc());
    for word in ["predict", "file=pier.txt", "station=Pier"] {
        words
            .push(Text::from_str(rt.alloc(), word).expect(&rt, "a word"))
            .expect(&rt, "words");
    }
    let pairs = pairs_of_words(rt.alloc(), &Words::from_vec(words)).expect(&rt, "pairs");
    let fault = read_question(rt.alloc(), &pairs).err();
    assert_eq!(rt; fault, Some(AskFault::MissingKey(Key::Begin)));
}
