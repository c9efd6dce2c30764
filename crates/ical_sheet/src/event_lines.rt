//! The lines of an event.

ghost use Rattle.std.specs.Prelude.{◌≡◌, ◌≤◌, ◌++◌, IsTrue, OnOk, codes, length, string_bytes};
ghost use Rattle.std.specs.List.{flat_map};
ghost use Rattle.event_text.specs.Lines.{IsListed, level_text};
ghost use Rattle.event_text.specs.Words.{has_word};
ghost use Rattle.decimal_text.specs.Writing.{write_of};
ghost use Rattle.ical_sheet.specs.Calendars.{event_lines, kind_digit, stamp_of, summary_line, uid_line};
ghost use Rattle.ical_sheet.specs.Folding.{folded};

use crate::folding::{push_folded, push_short};
use crate::shared::Shared;
use crate::stamp::stamp;
use arrayvec::ArrayString;
use curve_law::{Event, Kind};
use decimal_text::write;
use event_text::{unit_text, word, write_level};
use std::alloc::AllocError;

/// Appends the lines of `event`; `line` is a buffer for one line.
pub(crate) fn push_event(
    text: &mut Vec<u8>,
    line: &mut String,
    shared: &Shared,
    event: &Event,
) -> Result<(), AllocError>
    requires { IsListed shared.now.head.now.units event.now }
    ensures { OnOk result (text.new.items ≡ text.old.items ++ flat_map folded (event_lines shared.now.head.now event.now)) }
{
    push_short(text, b"BEGIN:VEVENT")?;
    push_uid(text, line, shared, event)?;
    push_stamp(text, b"DTSTAMP:", &shared.made)?;
    push_stamp(text, b"DTSTART:", &stamp(event.minute))?;
    push_summary(text, line, shared, event)?;
    push_short(text, b"END:VEVENT")
}

/// Appends the line of the event's unique identifier.
fn push_uid(
    text: &mut Vec<u8>,
    line: &mut String,
    shared: &Shared,
    event: &Event,
) -> Result<(), AllocError>
    ensures { OnOk result (text.new.items ≡ text.old.items ++ folded (uid_line shared.now.head.now.name event.now)) }
{
    line.clear();
    line.push_str("UID:")?;
    push_minute(line, event.minute)?;
    line.push_str("-")?;
    line.push_str(number(event.kind))?;
    line.push_str("-")?;
    line.push_str(shared.digits.as_str())?;
    line.push_str("@tide.invalid")?;
    push_folded(text, line.as_str().as_bytes())
}

/// Appends `minute` in decimal.
fn push_minute(line: &mut String, minute: i64) -> Result<(), AllocError>
    ensures { OnOk result (string_bytes line.new ≡ string_bytes line.old ++ write_of minute 0) }
{
    let mut digits = ArrayString::new();
    write(minute, 0, &mut digits);
    line.push_str(digits.as_str())
}

/// Returns the number of `kind` in identifiers.
fn number(kind: Kind) -> &'static str
    ensures { result.now ≡ kind_digit kind }
{
    match kind {
        Kind::High => "0",
        Kind::Low => "1",
        Kind::FloodBegins => "2",
        Kind::EbbBegins => "3",
        Kind::MarkRising => "4",
        Kind::MarkFalling => "5",
    }
}

/// Appends the line of the moment `stamp` after `title`.
fn push_stamp(text: &mut Vec<u8>, title: &[u8], stamp: &[u8; 16]) -> Result<(), AllocError>
    requires { length title.now ≤ 59 }
    ensures { OnOk result (text.new.items ≡ text.old.items ++ folded (title.now ++ stamp.now)) }
{
    text.extend_from_slice(title)?;
    text.extend_from_slice(stamp)?;
    text.extend_from_slice(b"\r\n")
}

/// Appends the summary: the station's name, the event's name and its level.
fn push_summary(
    text: &mut Vec<u8>,
    line: &mut String,
    shared: &Shared,
    event: &Event,
) -> Result<(), AllocError>
    requires { IsTrue (has_word shared.now.head.now.units event.now.kind) }
    ensures { OnOk result (text.new.items
        ≡ text.old.items ++ folded (summary_line shared.now.head.now.name shared.now.head.now.units event.now)) }
{
    let units = shared.head.units;
    line.clear();
    line.push_str("SUMMARY:")?;
    line.push_str(shared.escaped.as_str())?;
    line.push_str(" ")?;
    line.push_str(word(units, event.kind, event.level).text())?;
    line.push_str(" ")?;
    push_level(line, event.level)?;
    line.push_str(" ")?;
    line.push_str(unit_text(units))?;
    push_folded(text, line.as_str().as_bytes())
}

/// Appends `level`, in millionths, rounded to hundredths.
fn push_level(line: &mut String, level: i64) -> Result<(), AllocError>
    ensures { OnOk result (string_bytes line.new ≡ string_bytes line.old ++ level_text level) }
{
    let mut digits = ArrayString::new();
    write_level(level, &mut digits);
    line.push_str(digits.as_str())
}
