//! Calendars for other programs.

ghost use Rattle.std.specs.Prelude.{◌≡◌, IsTrue};
ghost use Rattle.harmonics_book.specs.declared.book.Units.{Units};
ghost use Rattle.ical_sheet.specs.Folding.{IsContentLine};

use crate::asserts::assert_holds;
use crate::lists::{is_listed, is_text};
use crate::reports::is_printable;
use curve_law::{Event, Kind};
use decimal_text::{Bytes, Text};
use harmonics_book::Units;
use ical_sheet::{
    IcalSheet, calendars_are_sheets, calendars_unfold, escape, fold, folded_lines_unfold,
    identifiers_are_unique, lines_are_cut_between_characters, unfold, worked_calendars,
    worked_escapes, worked_folds, worked_stamps, worked_unfolds,
};
use report_sheets::{Head, Sheet, Taken};
use std::alloc::{AllocError, Global};
use std::process::Abort;

type Item = (i64, Kind, i64);

const TIDE: &[Item] = &[
    (15_791_400, Kind::Low, -999_999),
    (15_791_759, Kind::High, 999_962),
    (15_792_120, Kind::Low, -1_000_000),
    (15_792_479, Kind::High, 999_962),
];

const NOW: i64 = 15_791_220;

/// Returns a sheet that is opened for a station's name at a minute, with a limit.
fn opened(rt: &impl Abort, alloc: Global, name: &str, now: i64, limit: u32) -> IcalSheet
    ensures { (⟦<IcalSheet as Sheet>⟧.heading result).units ≡ Units.Feet }
{
    assert!(rt; is_printable(name) && (1..=1_000_000).contains(&limit));
    let head = Head {
        name: Text::from_str(alloc, name).expect(rt, "a name"),
        units: Units::Feet,
        now,
    };
    let mut sheet = IcalSheet::new(alloc, limit);
    sheet.open(&head).expect(rt, "a sheet");
    sheet
}

/// Passes events to `sheet`, and returns the number of events that it accepted.
fn give(sheet: &mut IcalSheet, items: &[Item]) -> Result<u32, AllocError>
    requires { (⟦<IcalSheet as Sheet>⟧.heading sheet.old).units ≡ Units.Feet }
{
    let mut kept = 0;
    for &(minute, kind, level) in items {
        let event = Event {
            minute,
            kind,
            level,
        };
        if is_listed(Units::Feet, &event)
            && sheet.take(&event)? == Taken::Kept
            && kept < 1_000_000
        {
            kept += 1;
        }
    }
    Ok(kept)
}

fn calendar(
    rt: &impl Abort,
    alloc: Global,
    name: &str,
    now: i64,
    items: &[Item],
) -> Result<Bytes, AllocError> {
    let mut sheet = opened(rt, alloc, name, now, 100_000);
    give(&mut sheet, items).expect(rt, "events");
    sheet.text()
}

fn is_content(line: &[u8]) -> bool
    ensures { IsTrue result → IsContentLine line.now }
{
    std::str::from_utf8(line).is_ok()
        && line.iter().all(|b| *b != b'\r' && *b != b'\n')
        && (line.is_empty() || !matches!(line[0], b' ' | b'\t'))
}

fn escape_name(alloc: Global, name: &str) -> Result<Bytes, AllocError> {
    if !is_printable(name) {
        return Err(AllocError);
    }
    escape(alloc, &Text::from_str(alloc, name)?)
}

fn holds(text: &[u8], part: &str) -> bool {
    text.windows(part.len().max(1))
        .any(|bytes| bytes == part.as_bytes())
}

/// Returns true if `text` is text with lines of these lengths.
fn has_lengths(text: &[u8], lengths: &[usize]) -> bool {
    let Ok(text) = std::str::from_utf8(text) else {
        return false;
    };
    let mut place = 0;
    for line in text.lines() {
        if place >= lengths.len() || line.len() != lengths[place] {
            return false;
        }
        place += 1;
    }
    place == lengths.len()
}

/// Returns true if `text` is text with lines of at most 75 bytes.
fn has_short_lines(text: &[u8]) -> bool {
    match std::str::from_utf8(text) {
        Ok(text) => text.lines().all(|line| line.len() <= 75),
        Err(_) => false,
    }
}

fn folded(alloc: Global, line: &[u8]) -> Result<Bytes, AllocError> {
    if is_content(line) {
        fold(alloc, line)
    } else {
        Err(AllocError)
    }
}

const CALENDAR: &str =
    "BEGIN:VCALENDAR\r\nVERSION:2.0\r\nPRODID:-//Tide desk//Tide predictor//EN\r\n\
    BEGIN:VEVENT\r\nUID:15791400-1-50696572@tide.invalid\r\nDTSTAMP:20000110T030000Z\r\n\
    DTSTART:20000110T060000Z\r\nSUMMARY:Pier Low Tide -1.00 feet\r\nEND:VEVENT\r\n\
    BEGIN:VEVENT\r\nUID:15791759-0-50696572@tide.invalid\r\nDTSTAMP:20000110T030000Z\r\n\
    DTSTART:20000110T115900Z\r\nSUMMARY:Pier High Tide 1.00 feet\r\nEND:VEVENT\r\n\
    BEGIN:VEVENT\r\nUID:15792120-1-50696572@tide.invalid\r\nDTSTAMP:20000110T030000Z\r\n\
    DTSTART:20000110T180000Z\r\nSUMMARY:Pier Low Tide -1.00 feet\r\nEND:VEVENT\r\n\
    BEGIN:VEVENT\r\nUID:15792479-0-50696572@tide.invalid\r\nDTSTAMP:20000110T030000Z\r\n\
    DTSTART:20000110T235900Z\r\nSUMMARY:Pier High Tide 1.00 feet\r\nEND:VEVENT\r\nEND:VCALENDAR\r\n";

#[test]
fn the_day_of_a_small_file_is_a_calendar(rt: HostRuntime) {
    let alloc = rt.alloc();
    assert!(rt; is_text(calendar(&rt, alloc, "Pier", NOW, TIDE), CALENDAR));
    assert!(rt; is_text(calendar(&rt, alloc, "Pier", NOW, &[]), ""));
}

/// A number of letters, and the lengths of their folded lines.
static FOLDED: &[(usize, &[usize])] = &[
    (0, &[0]),
    (74, &[74]),
    (75, &[75]),
    (76, &[75, 2]),
    (149, &[75, 75]),
    (150, &[75, 75, 2]),
];

fn is_folded(alloc: Global, line: &[u8], lengths: &[usize]) -> bool {
    match folded(alloc, line) {
        Ok(text) => has_lengths(text.as_slice(), lengths) && text.as_slice().ends_with(b"\r\n"),
        Err(_) => false,
    }
}

fn are_letters_folded(alloc: Global, count: usize, lengths: &[usize]) -> bool {
    match "a".repeat(alloc, count) {
        Ok(line) => is_folded(alloc, line.as_bytes(), lengths),
        Err(_) => false,
    }
}

#[test]
fn lines_are_folded(rt: HostRuntime) {
    for &(count, lengths) in FOLDED {
        assert_holds(&rt, are_letters_folded(rt.alloc(), count, lengths), count);
    }
}

/// Returns true if `text` is unfolded to `line` and its end.
fn unfolds_to(alloc: Global, text: &[u8], line: &[u8]) -> bool {
    match unfold(alloc, text) {
        Ok(unfolded) => unfolded.as_slice().strip_suffix(b"\r\n") == Some(line),
        Err(_) => false,
    }
}

/// Returns true if a line is unfolded to what it was before it was folded.
fn is_unfolded(alloc: Global, line: &[u8]) -> bool {
    match folded(alloc, line) {
        Ok(text) => unfolds_to(alloc, text.as_slice(), line),
        Err(_) => false,
    }
}

fn check_letters(rt: &impl Abort, alloc: Global, line: &[u8]) {
    let is_folded = is_folded(alloc, line, &[74, 75, 75, 75, 75, 31]);
    assert_holds(rt, is_folded, "folded letters");
    assert_holds(rt, is_unfolded(alloc, line), "unfolded letters");
}

#[test]
fn letters_are_not_cut(rt: HostRuntime) -> Result<(), AllocError> {
    let letters = "\u{e9}".repeat(rt.alloc(), 200)?;
    check_letters(&rt, rt.alloc(), letters.as_bytes());
    Ok(())
}

#[test]
fn lines_are_unfolded(rt: HostRuntime) {
    assert!(rt; is_text(unfold(rt.alloc(), b"a\r\n b\r\n\tc\r\nd"), "abc\r\nd"));
}

/// A name, and how it is written in a calendar.
static NAMES: &[(&str, &str)] = &[
    ("Pier, North; A\\B", "Pier\\, North\\; A\\\\B"),
    ("C\u{e1}diz: \"old\"", "C\u{e1}diz: \"old\""),
    ("\\n;,", "\\\\n\\;\\,"),
];

/// Returns true if the calendar of a tide has a part.
fn has_part(rt: &impl Abort, alloc: Global, name: &str, now: i64, part: &str) -> bool {
    match calendar(rt, alloc, name, now, TIDE) {
        Ok(text) => holds(text.as_slice(), part),
        Err(_) => false,
    }
}

/// Returns true if the calendar of a tide has a summary of this name.
fn has_summary(rt: &impl Abort, alloc: Global, name: &str, expected: &str) -> bool {
    match format!(in alloc; "\r\nSUMMARY:{expected} Low Tide -1.00 feet\r\n") {
        Ok(summary) => has_part(rt, alloc, name, NOW, summary.as_str()),
        Err(_) => false,
    }
}

#[test]
fn names_are_escaped(rt: HostRuntime) {
    let alloc = rt.alloc();
    for &(name, expected) in NAMES {
        assert_holds(&rt, is_text(escape_name(alloc, name), expected), name);
        assert_holds(&rt, has_summary(&rt, alloc, name, expected), name);
    }
}

/// Returns true if the lines of a text, unfolded, have `letters` between `before` and `after`.
fn has_unfolded(alloc: Global, text: &[u8], before: &str, letters: &str, after: &str) -> bool {
    let Ok(part) = format!(in alloc; "{before}{letters}{after}") else {
        return false;
    };
    match unfold(alloc, text) {
        Ok(lines) => holds(lines.as_slice(), part.as_str()),
        Err(_) => false,
    }
}

const SUMMARY: (&str, &str) = ("\r\nSUMMARY:", " High Tide 1.00 feet\r\n");

const IDENTIFIER: (&str, &str) = ("\r\nUID:15791400-1-", "@tide.invalid\r\n");

fn check_long_name(rt: &impl Abort, alloc: Global, text: &[u8], name: &str, digits: &str) {
    assert_holds(rt, has_short_lines(text), "short lines");
    let has_name = has_unfolded(alloc, text, SUMMARY.0, name, SUMMARY.1);
    assert_holds(rt, has_name, "summary");
    let has_digits = has_unfolded(alloc, text, IDENTIFIER.0, digits, IDENTIFIER.1);
    assert_holds(rt, has_digits, "identifier");
}

#[test]
fn a_long_name_is_folded_between_its_letters(rt: HostRuntime) {
    let alloc = rt.alloc();
    let name = "\u{e9}".repeat(alloc, 200).expect(&rt, "a name");
    let digits = "c3a9".repeat(alloc, 200).expect(&rt, "digits");
    let text = calendar(&rt, alloc, name.as_str(), NOW, TIDE).expect(&rt, "a calendar");
    check_long_name(&rt, alloc, text.as_slice(), name.as_str(), digits.as_str());
}

/// Returns the text of a sheet with a limit of 2, which accepted two events.
fn full_sheet(rt: &impl Abort, alloc: Global) -> Result<Bytes, AllocError> {
    let mut sheet = opened(rt, alloc, "Pier", NOW, 2);
    let kept = give(&mut sheet, TIDE).expect(rt, "events");
    assert!(rt; kept == 2);
    sheet.text()
}

/// Returns true if a sheet has this word, or `None` if memory runs out.
fn is_named(alloc: Global, word: &str) -> Option<bool> {
    let word = Text::from_str(alloc, word).ok()?;
    Some(IcalSheet::new(alloc, 2).named(&word))
}

#[test]
fn a_full_sheet_has_the_first_events(rt: HostRuntime) {
    let text = full_sheet(&rt, rt.alloc()).expect(&rt, "a text");
    let two = calendar(&rt, rt.alloc(), "Pier", NOW, &TIDE[..2]).expect(&rt, "a calendar");
    assert!(rt; text.as_slice() == two.as_slice());
}

#[test]
fn sheets_have_their_word(rt: HostRuntime) {
    assert!(rt; is_named(rt.alloc(), "ical") == Some(true));
    assert!(rt; is_named(rt.alloc(), "first") == Some(false));
}

/// A minute, and the stamp of a calendar that is made then.
static STAMPS: &[(i64, &str)] = &[
    (i64::MIN, "DTSTAMP:00010101T000000Z\r\n"),
    (-1_035_593_281, "DTSTAMP:00010101T000000Z\r\n"),
    (-1_035_593_279, "DTSTAMP:00010101T000100Z\r\n"),
    (4_223_371_679, "DTSTAMP:99991231T235900Z\r\n"),
    (i64::MAX, "DTSTAMP:99991231T235900Z\r\n"),
];

#[test]
fn clocks_are_kept_within_the_years(rt: HostRuntime) {
    for &(now, stamp) in STAMPS {
        assert_holds(&rt, has_part(&rt, rt.alloc(), "Pier", now, stamp), now);
    }
}

#[test]
fn laws_and_rows_stand(_rt: HostRuntime) {
    worked_calendars();
    worked_escapes();
    worked_folds();
    worked_stamps();
    worked_unfolds();
    folded_lines_unfold();
    calendars_unfold();
    lines_are_cut_between_characters();
    calendars_are_sheets();
    identifiers_are_unique();
}
