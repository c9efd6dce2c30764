//! The examples in the documentation of public calls, over a pier from 1999 to 2001.

ghost use Rattle.harmonics_book.specs.Books.{IsBook};
ghost use Rattle.question.specs.Asked.{IsAsked};
ghost use Rattle.tide_answer.specs.Givens.{IsGiven};

use crate::asserts::{assert_bytes, assert_holds};
use calendar_sheet::calendar_text;
use cert_text::{CertFault, read_certificate, write_certificate};
use decimal_text::{Bytes, Text};
use harmonics_book::Book;
use harmonics_text::read_book;
use listing::plain_events;
use named_files::LoadFault;
use question::{Question, pairs_of_words, read_question};
use sample_tides::{DAY, PIER, words_of};
use station_span::{
    Purpose, SpanRequest, StationData, StationRequest, find_events, find_level, find_station,
    highest_minute, level_at, moved_minute,
};
use station_table::OffsetTable;
use std::alloc::Global;
use std::process::Abort;
use tide_answer::{Given, answer, load_book, station_events};
use tide_edge::MemoryFiles;
use zone_time::Zone;

fn pier(rt: &impl Abort, alloc: Global) -> Book
    ensures { IsBook result }
{
    read_book(alloc, PIER.as_bytes()).expect(rt, "a book")
}

/// Returns the request of the arguments in `line`, separated by '|'.
fn request(rt: &impl Abort, alloc: Global, line: &str) -> Question
    ensures { IsAsked result }
{
    let words = words_of(alloc, line).expect(rt, "words");
    let pairs = pairs_of_words(alloc, &words).expect(rt, "pairs");
    read_question(alloc, &pairs).expect(rt, "a question")
}

const DAY_OF_PIER: &str =
    "predict|file=f|station=Pier|begin=2000-01-10T00:00Z|end=2000-01-11T00:00Z";

const CERTIFICATE: &str =
    "tide certificate 2\nstation Pier\nbegin 2000-01-10T00:00Z\nend 2000-01-10T00:08Z\n\
    mark none\ntrack turn\ns\ns\nq 2\nq 4\ndone\n";

/// A book, a table without a row, and a request for a day.
#[derive(Drop)]
struct Sources {
    book: Book,
    table: OffsetTable,
    question: Question,
}

fn pier_sources(rt: &impl Abort, alloc: Global) -> Sources
    ensures book { IsBook result.book }
    ensures question { IsAsked result.question }
{
    Sources {
        question: request(rt, alloc, DAY_OF_PIER),
        book: pier(rt, alloc),
        table: OffsetTable::new(alloc),
    }
}

fn find_day(rt: &impl Abort, alloc: Global, book: &Book, table: &OffsetTable, name: &Text)
    requires { IsBook book.now }
{
    let span_request = SpanRequest {
        begin: 15_791_040,
        end: 15_792_480,
        mark: None,
    };
    let stations = StationData::new(&book, &table);
    let request = StationRequest::new(&name, span_request);
    let found_station = find_station(alloc, &stations, Purpose::Events, &request).expect(
        rt,
        "a station",
    );
    let listed = find_events(alloc, &found_station).expect(rt, "events");
    assert_eq!(rt; listed.events.as_slice().len(), 4);
}

fn find_highest_water(rt: &impl Abort, alloc: Global, book: &Book, table: &OffsetTable, name: &Text)
    requires { IsBook book.now }
{
    let span_request = SpanRequest {
        begin: 15_791_040,
        end: 15_792_480,
        mark: None,
    };
    let stations = StationData::new(&book, &table);
    let request = StationRequest::new(&name, span_request);
    let found_station = find_level(alloc, &stations, &request).expect(rt, "a station");
    let minute = moved_minute(&found_station, highest_minute(&found_station));
    let level = level_at(&found_station, minute);
    assert_eq!(rt; (minute, level), (15_791_040, 1_000_000));
}

#[test]
fn a_station_has_its_events_and_its_highest_water(rt: HostRuntime) {
    let alloc = rt.alloc();
    let name = Text::from_str(alloc, "Pier").expect(&rt, "a name");
    let book = pier(&rt, alloc);
    let table = OffsetTable::new(alloc);
    find_day(&rt, alloc, &book, &table, &name);
    find_highest_water(&rt, alloc, &book, &table, &name);
}

fn answer_day(rt: &impl Abort, alloc: Global, book: &Book, table: &OffsetTable, question: &Question)
    requires book { IsBook book.now }
    requires question { IsAsked question.now }
{
    let inputs = Given {
        zone: Zone::Utc,
        certificate: Bytes::from_vec(Vec::new(alloc)),
        now: 0,
    };
    let answered = answer(alloc, &book, &table, &question, &inputs).expect(rt, "an answer");
    assert_eq!(rt; answered.text.as_slice(), DAY.as_bytes());
}

fn check_certificate(rt: &impl Abort, alloc: Global, book: &Book, table: &OffsetTable)
    requires { IsBook book.now }
{
    let question = request(rt, alloc, "check|file=f|certificate=c");
    let certificate = CERTIFICATE
        .as_bytes()
        .to_vec(alloc)
        .expect(rt, "a certificate");
    let inputs = Given {
        zone: Zone::Utc,
        certificate: Bytes::from_vec(certificate),
        now: 0,
    };
    let checked = answer(alloc, &book, &table, &question, &inputs).expect(rt, "an answer");
    assert!(rt; !checked.rejected);
    assert_bytes(rt, checked.text.as_slice(), b"Accepted\nPier\n", "check");
}

fn list_day(
    rt: &impl Abort,
    alloc: Global,
    book: &Book,
    table: &OffsetTable,
    question: &Question,
    inputs: &Given,
)
    requires book { IsBook book.now }
    requires question { IsAsked question.now }
    requires inputs { IsGiven inputs.now }
{
    let listed = station_events(alloc, &book, &table, &question, &inputs).expect(rt, "events");
    let (name, units, events) = (&listed.name, listed.units, &listed.events);
    let lines = plain_events(alloc, name, units, events, &Zone::Utc).expect(rt, "lines");
    assert_eq!(rt; lines.as_slice(), DAY.as_bytes());
}

fn list_dates(
    rt: &impl Abort,
    alloc: Global,
    book: &Book,
    table: &OffsetTable,
    question: &Question,
    inputs: &Given,
)
    requires book { IsBook book.now }
    requires question { IsAsked question.now }
    requires inputs { IsGiven inputs.now }
{
    let listed = station_events(alloc, book, table, question, inputs).expect(rt, "events");
    let (name, units, events) = (&listed.name, listed.units, &listed.events);
    let (begin, end) = (15_791_040, 15_792_480);
    let dates = calendar_text(alloc, name, units, events, &Zone::Utc, begin, end).expect(
        rt, "dates",
    );
    let first = b"Pier\n2000-01-10  06:00 -1.00 Low";
    assert_holds(rt, dates.as_slice().starts_with(first), "calendar");
}

#[test]
fn requests_are_answered_and_events_laid_out(rt: HostRuntime) {
    let alloc = rt.alloc();
    let sources = pier_sources(&rt, alloc);
    let inputs = Given {
        zone: Zone::Utc,
        certificate: Bytes::from_vec(Vec::new(alloc)),
        now: 0,
    };
    let (book, table, question) = (&sources.book, &sources.table, &sources.question);
    answer_day(&rt, alloc, book, table, question);
    check_certificate(&rt, alloc, book, table);
    list_day(&rt, alloc, book, table, question, &inputs);
    list_dates(&rt, alloc, book, table, question, &inputs);
}

#[test]
fn a_certificate_is_read(rt: HostRuntime) -> Result<(), CertFault> {
    let alloc = rt.alloc();
    let cert = read_certificate(alloc, CERTIFICATE.as_bytes())?;
    assert_eq!(rt; cert.station.as_str(), "Pier");
    assert_eq!(rt; cert.tracks.turn.as_slice().len(), 4);
    Ok(())
}

#[test]
fn a_certificate_is_written(rt: HostRuntime) {
    let alloc = rt.alloc();
    let cert = read_certificate(alloc, CERTIFICATE.as_bytes()).expect(&rt, "a certificate");
    let written = write_certificate(alloc, &cert).expect(&rt, "a text");
    assert_eq!(rt; written.as_slice(), CERTIFICATE.as_bytes());
}

#[test]
fn loaded_books(rt: HostRuntime) {
    let mut files = MemoryFiles::new(Vec::new(rt.alloc()), Vec::new(rt.alloc()));
    let name = Text::from_str(rt.alloc(), "harmonics").expect(&rt, "a name");
    let loaded = load_book(rt.alloc(), &mut files, &name, 1_000);
    assert_eq!(rt; loaded.err(), Some(LoadFault::Failed));
}
