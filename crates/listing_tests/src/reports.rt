//! Reports of several sheets.

ghost use Rattle.std.specs.Prelude.{◌≢◌, ◌≤◌, All, IsTrue};
ghost use Rattle.report_sheets.specs.Sheets.{IsLimit};

use crate::asserts::assert_holds;
use crate::lists::{TIDE, events_of, is_text};
use crate::sheets::{Counter, Refusal, Refusing};
use curve_law::Kind;
use decimal_text::{Bytes, Text};
use harmonics_book::Units;
use report_sheets::{
    FirstLines, Head, Ranges, Sheet, Tally, fill, missing, pages_show_the_first_events,
    sheets_write_their_layouts, worked_pages, worked_ranges, worked_tallies, worked_words,
};
use sample_tides::words_of;
use std::alloc::{AllocError, Global};
use std::process::Abort;

pub fn is_printable(name: &str) -> bool
    ensures { IsTrue result → All (λ b. (32 ≤ b) × (b ≢ 127)) name.now }
{
    name.as_bytes().iter().all(|b| *b >= 32 && *b != 127)
}

/// Returns the text of the sheets whose words are in `wanted`, separated by '|', or an error if a call of a
/// sheet fails. The name and the events can be listed.
fn report(
    rt: &impl Abort,
    alloc: Global,
    sheets: Vec<Box<dyn Sheet>>,
    wanted: &str,
    name: &str,
    items: &[(i64, Kind, i64)],
) -> Result<Bytes, AllocError> {
    assert!(rt; is_printable(name));
    let events = events_of(alloc, Units::Feet, items).expect(rt, "events");
    let words = words_of(alloc, wanted).expect(rt, "words");
    let head = Head {
        name: Text::from_str(alloc, name).expect(rt, "a name"),
        units: Units::Feet,
        now: 15791220,
    };
    fill(alloc, sheets, &words, &head, &events)
}

/// Returns the text of the three sheets of the program; the first limit is the one of `first`, the second
/// the one of the other two. Both are from 1 to 1,000,000.
fn report_of_three(
    rt: &impl Abort,
    alloc: Global,
    limits: (u32, u32),
    wanted: &str,
    name: &str,
    items: &[(i64, Kind, i64)],
) -> Result<Bytes, AllocError> {
    let (limit, first) = limits;
    assert!(rt; (1..=1_000_000).contains(&limit) && (1..=1_000_000).contains(&first));
    let tally = Box::new(alloc, Tally::new(alloc, limit)).expect(rt, "a sheet");
    let ranges = Box::new(alloc, Ranges::new(alloc, limit)).expect(rt, "a sheet");
    let lines = Box::new(alloc, FirstLines::new(alloc, first)).expect(rt, "a sheet");
    let mut sheets: Vec<Box<dyn Sheet>> = Vec::new(alloc);
    sheets.push(tally).expect(rt, "sheets");
    sheets.push(ranges).expect(rt, "sheets");
    sheets.push(lines).expect(rt, "sheets");
    report(rt, alloc, sheets, wanted, name, items)
}

/// Returns true if a text consists of these parts.
fn consists_of(text: &[u8], parts: &[&str]) -> bool {
    let mut remaining = text;
    for part in parts {
        match remaining.strip_prefix(part.as_bytes()) {
            Some(rest) => remaining = rest,
            None => return false,
        }
    }
    remaining.is_empty()
}

const TALLY: &str = "Pier\n2 High Tide\n2 Low Tide\n";

const RANGE: &str = "Pier\n\
    Highest 1.00 feet 2000-01-10T11:59Z\n\
    Lowest -1.00 feet 2000-01-10T06:00Z\n";

const FIRST_TWO: &str = "Pier\n\
    2000-01-10 06:00 UTC      -1.00 feet  Low Tide\n\
    2000-01-10 11:59 UTC       1.00 feet  High Tide\n";

const LAST_TWO: &str = "2000-01-10 18:00 UTC      -1.00 feet  Low Tide\n\
    2000-01-10 23:59 UTC       1.00 feet  High Tide\n";

/// The requested words, the limit of the sheet `first`, and the parts of the text.
static REPORTS: &[(&str, u32, &[&str])] = &[
    (
        "first|tally|range",
        10,
        &[TALLY, RANGE, FIRST_TWO, LAST_TWO],
    ),
    ("first|tally|range", 2, &[TALLY, RANGE, FIRST_TWO]),
    ("first", 4, &[FIRST_TWO, LAST_TWO]),
    ("range|tally", 10, &[TALLY, RANGE]),
    ("graph", 10, &[]),
];

/// Returns true if a text was made, and consists of these parts.
fn has_parts(made: Result<Bytes, AllocError>, parts: &[&str]) -> bool {
    match made {
        Ok(text) => consists_of(text.as_slice(), parts),
        Err(_) => false,
    }
}

#[test]
fn reports_are_filled(rt: HostRuntime) {
    for &(wanted, limit, parts) in REPORTS {
        let limits = (1_000_000, limit);
        let text = report_of_three(&rt, rt.alloc(), limits, wanted, "Pier", TIDE);
        assert_holds(&rt, has_parts(text, parts), wanted);
    }
}

fn check_empty_lists(rt: &impl Abort, alloc: Global, name: &str) {
    let text = report_of_three(rt, alloc, (1, 1), "first|range|tally", name, &[]);
    let parts = [name, "\n", name, "\n", name, "\n"];
    assert!(rt; has_parts(text, &parts));
}

#[test]
fn empty_lists_leave_the_name(rt: HostRuntime) -> Result<(), AllocError> {
    let name = "a".repeat(rt.alloc(), 400)?;
    check_empty_lists(&rt, rt.alloc(), name.as_str());
    Ok(())
}

/// Returns a counter on the heap.
fn counter(rt: &impl Abort, alloc: Global, word: &str, limit: u32) -> Box<Counter>
    requires { IsLimit limit }
{
    let counter = Counter::new(alloc, word, limit).expect(rt, "a counter");
    Box::new(alloc, counter).expect(rt, "a sheet")
}

#[test]
fn sheets_of_any_kind_are_filled(rt: HostRuntime) {
    let alloc = rt.alloc();
    let mut sheets: Vec<Box<dyn Sheet>> = Vec::new(alloc);
    sheets
        .push(counter(&rt, alloc, "few", 1))
        .expect(&rt, "sheets");
    sheets
        .push(counter(&rt, alloc, "four", 4))
        .expect(&rt, "sheets");
    sheets
        .push(counter(&rt, alloc, "none", 9))
        .expect(&rt, "sheets");
    sheets
        .push(counter(&rt, alloc, "many", 1_000_000))
        .expect(&rt, "sheets");
    let text = report(&rt, alloc, sheets, "many|four|few", "Pier", TIDE);
    assert!(rt; is_text(text, "few 1\nfour 4\nmany 4\n"));
}

/// Returns the text of a sheet whose call `at` runs out of memory, and of one before it.
fn refused(rt: &impl Abort, alloc: Global, at: Option<Refusal>) -> Result<Bytes, AllocError> {
    let tally = Box::new(alloc, Tally::new(alloc, 4)).expect(rt, "a sheet");
    let refusing = Box::new(alloc, Refusing::new(alloc, at)).expect(rt, "a sheet");
    let mut sheets: Vec<Box<dyn Sheet>> = Vec::new(alloc);
    sheets.push(tally).expect(rt, "sheets");
    sheets.push(refusing).expect(rt, "sheets");
    report(rt, alloc, sheets, "tally|refusing", "Pier", TIDE)
}

static CALLS: &[(Refusal, &str)] = &[
    (Refusal::Open, "open"),
    (Refusal::Take, "take"),
    (Refusal::Text, "text"),
];

/// The same report has its text if no call fails, so the error is due to the sheet.
#[test]
fn refusals_leave_no_text(rt: HostRuntime) {
    let kept = refused(&rt, rt.alloc(), None);
    assert!(rt; is_text(kept, "Pier\n2 High Tide\n2 Low Tide\nkept"));
    for &(at, call) in CALLS {
        assert_holds(&rt, refused(&rt, rt.alloc(), Some(at)).is_err(), call);
    }
}

/// Requested words, and the place of the first one that no sheet has.
static MISSING: &[(&str, Option<u64>)] = &[
    ("tally|few", None),
    ("few|tally", None),
    ("few|graph|table", Some(1)),
    ("Tally", Some(0)),
    ("", None),
];

fn is_missing(
    alloc: Global,
    sheets: &Vec<Box<dyn Sheet>>,
    wanted: &str,
    place: Option<u64>,
) -> bool {
    match words_of(alloc, wanted) {
        Ok(words) => missing(sheets, &words) == place,
        Err(_) => false,
    }
}

fn check_missing(rt: &impl Abort, alloc: Global, sheets: &Vec<Box<dyn Sheet>>) {
    for &(wanted, place) in MISSING {
        assert_holds(rt, is_missing(alloc, sheets, wanted, place), wanted);
    }
}

#[test]
fn unknown_words_are_missing(rt: HostRuntime) {
    let alloc = rt.alloc();
    let tally = Box::new(alloc, Tally::new(alloc, 4)).expect(&rt, "a sheet");
    let mut sheets: Vec<Box<dyn Sheet>> = Vec::new(alloc);
    sheets.push(tally).expect(&rt, "sheets");
    sheets
        .push(counter(&rt, alloc, "few", 1))
        .expect(&rt, "sheets");
    check_missing(&rt, alloc, &sheets);
}

#[test]
fn laws_and_rows_stand(_rt: HostRuntime) {
    worked_tallies();
    worked_ranges();
    worked_pages();
    worked_words();
    pages_show_the_first_events();
    sheets_write_their_layouts();
}
