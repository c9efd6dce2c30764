//! The lines that report faults.

ghost use Rattle.std.specs.Prelude.{◌≡◌, ◌++◌, codes, IfOk, string_bytes};
ghost use Rattle.tide_fault.specs.Faults.{
  line_of,
  slot_name,
  ask_line,
  form_line,
  file_line,
  table_line,
  row_line,
  naming_line,
  reference_at,
  refusal_line,
  years_line,
  minute_text,
  is_moment,
};

use crate::fault::Fault;
use crate::refusal::Refusal;
use crate::slot::Slot;
use arrayvec::ArrayString;
use decimal_text::Bytes;
use harmonics_text::{BookFault, Why};
use question::{AskFault, Key};
use station_table::{OffsetFault, OffsetTable, OffsetWhy};
use std::alloc::{AllocError, Global};
use zone_time::write_moment;

/// Returns the line that reports `fault`, with its LF. `table` is the table of subordinate stations
/// that was read. For [`NoReference`](Refusal::NoReference) the line ends with the name of the
/// reference station in the row of `table` whose index the refusal has, or without a name if
/// `table` has no such row. A minute of [`OutOfYears`](Refusal::OutOfYears) outside the years 1 to
/// 9999 is left out.
///
/// # Errors
/// [`AllocError`] if memory runs out.
pub fn fault_line(alloc: Global, fault: &Fault, table: &OffsetTable) -> Result<Bytes, AllocError>
    ensures { IfOk result (λ line. line ≡ line_of table.now fault.now) }
{
    let text = fault_text(alloc, fault, table)?;
    Ok(Bytes::from_vec(text.into_bytes()))
}

#[tactic(auto, unfolding(crate::specs::Faults::line_of))]
fn fault_text(alloc: Global, fault: &Fault, table: &OffsetTable) -> Result<String, AllocError>
    ensures { IfOk result (λ text. string_bytes text ≡ line_of table.now fault.now) }
{
    match fault {
        Fault::Ask(ask) => ask_text(alloc, *ask),
        Fault::NoSheet { word } => named_text(alloc, "refused: no sheet ", word.as_str()),
        Fault::TooLong(slot) => long_text(alloc, *slot),
        Fault::Book(form) => form_text(alloc, *form),
        Fault::Offsets(fault) => table_text(alloc, *fault),
        Fault::BadZone => String::from_str(alloc, "zone: bad zone file\n"),
        Fault::Refused(refusal) => refusal_text(alloc, *refusal, table),
    }
}

/// Returns the line for a command line or query that isn't a request, or if memory ran out.
#[tactic(auto, unfolding(crate::specs::Faults::ask_line))]
fn ask_text(alloc: Global, fault: AskFault) -> Result<String, AllocError>
    ensures { IfOk result (λ text. string_bytes text ≡ ask_line fault) }
{
    match fault {
        AskFault::NoMemory => String::from_str(alloc, "no memory\n"),
        AskFault::NoCommand => String::from_str(alloc, "words: no command\n"),
        AskFault::UnknownCommand => String::from_str(alloc, "words: unknown command\n"),
        AskFault::NotAPair(pair) => format!(in alloc; "words: pair {pair} is not key=value\n"),
        AskFault::UnknownKey(pair) => format!(in alloc; "words: pair {pair} has an unknown key\n"),
        AskFault::RepeatedKey(pair) => format!(in alloc; "words: pair {pair} repeats a key\n"),
        AskFault::BadValue(pair) => format!(in alloc; "words: pair {pair} has a bad value\n"),
        AskFault::MissingKey(key) => missing_text(alloc, key),
    }
}

/// Returns the line for a request without a required key.
#[tactic(auto, unfolding(crate::specs::Faults::ask_line))]
fn missing_text(alloc: Global, key: Key) -> Result<String, AllocError>
    ensures { IfOk result (λ text. string_bytes text ≡ ask_line (AskFault.MissingKey key)) }
{
    let mut text = String::from_str(alloc, "words: ")?;
    text.push_str(key.text())?;
    text.push_str(" is missing\n")?;
    Ok(text)
}

/// Returns the line for a file that has more bytes than the program reads.
fn long_text(alloc: Global, slot: Slot) -> Result<String, AllocError>
    ensures { IfOk result (λ text. string_bytes text ≡ slot_name slot ++ codes ": too long\n") }
{
    let mut text = String::from_str(alloc, slot.text())?;
    text.push_str(": too long\n")?;
    Ok(text)
}

/// Returns the line for a file of harmonic constants that isn't in its format, or if memory ran
/// out.
#[tactic(auto, unfolding(crate::specs::Faults::form_line))]
fn form_text(alloc: Global, fault: BookFault) -> Result<String, AllocError>
    ensures { IfOk result (λ text. string_bytes text ≡ form_line fault) }
{
    match fault {
        BookFault::NoMemory => String::from_str(alloc, "no memory\n"),
        BookFault::At { line, why } => file_text(alloc, line, why),
    }
}

/// Returns the line for a harmonics file of which `line`, counted from 1, is bad for the reason
/// `why`.
fn file_text(alloc: Global, line: u32, why: Why) -> Result<String, AllocError>
    ensures { IfOk result (λ text. string_bytes text ≡ file_line line why) }
{
    let mut text = format!(in alloc; "file: line {line}: ")?;
    text.push_str(why.text())?;
    let number = why.number();
    let end = format!(in alloc; " ({number})\n")?;
    text.push_str(end.as_str())?;
    Ok(text)
}

/// Returns the line for a table of subordinate stations that isn't in its format, or if memory ran
/// out.
#[tactic(auto, unfolding(crate::specs::Faults::table_line))]
fn table_text(alloc: Global, fault: OffsetFault) -> Result<String, AllocError>
    ensures { IfOk result (λ text. string_bytes text ≡ table_line fault) }
{
    match fault {
        OffsetFault::NoMemory => String::from_str(alloc, "no memory\n"),
        OffsetFault::At { row, why } => row_text(alloc, row, why),
    }
}

/// Returns the line for a table of subordinate stations of which `row` (the header is row 1) is bad
/// for the reason `why`.
fn row_text(alloc: Global, row: u32, why: OffsetWhy) -> Result<String, AllocError>
    ensures { IfOk result (λ text. string_bytes text ≡ row_line row why) }
{
    let mut text = format!(in alloc; "offsets: row {row}: ")?;
    text.push_str(why.text())?;
    let number = why.number();
    let end = format!(in alloc; " ({number})\n")?;
    text.push_str(end.as_str())?;
    Ok(text)
}

#[tactic(auto, unfolding(crate::specs::Faults::refusal_line))]
fn refusal_text(alloc: Global, refusal: Refusal, table: &OffsetTable) -> Result<String, AllocError>
    ensures { IfOk result (λ text. string_bytes text ≡ refusal_line table.now refusal) }
{
    match refusal {
        Refusal::NoMemory => String::from_str(alloc, "no memory\n"),
        Refusal::NotACertificate { line } => format!(in alloc; "certificate: line {line}\n"),
        Refusal::BadSample { line, why } => file_text(alloc, line, why),
        Refusal::NoStation => String::from_str(alloc, "refused: no station\n"),
        Refusal::NoReference { row } => {
            named_text(alloc, "refused: no reference ", reference_at(table, row))
        }
        Refusal::Hydraulic => String::from_str(alloc, "refused: hydraulic\n"),
        Refusal::BackwardSpan => String::from_str(alloc, "refused: backward span\n"),
        Refusal::EmptySpan => String::from_str(alloc, "refused: empty span\n"),
        Refusal::OutOfYears { first, last } => years_text(alloc, first, last),
        Refusal::TooLarge { year } => format!(in alloc; "limit: too large in {year}\n"),
        Refusal::TooSteep { year } => format!(in alloc; "limit: too steep in {year}\n"),
        Refusal::SpanTooLong { minutes } => {
            format!(in alloc; "limit: span of {minutes} minutes\n")
        }
        Refusal::MarkNotHere => String::from_str(alloc, "refused: mark not here\n"),
        Refusal::LevelNotHere => String::from_str(alloc, "refused: level not here\n"),
        Refusal::TooManyRows { rows } => format!(in alloc; "limit: {rows} rows\n"),
    }
}

/// Returns the name of the reference station in the row of `table` with the index `row`, counted
/// from 0, or an empty text if there is no such row.
#[tactic(auto, using(crate::proofs::LineLemmas::no_reference))]
fn reference_at(table: &OffsetTable, row: u32) -> &str
    ensures { result.now ≡ reference_at table.now row }
{
    let rows = table.as_slice();
    if (row as usize) < rows.len() {
        rows[row as usize].reference.as_str()
    } else {
        ""
    }
}

/// Returns the line of `what` and then `name`, with its LF.
fn named_text(alloc: Global, what: &str, name: &str) -> Result<String, AllocError>
    ensures { IfOk result (λ text. string_bytes text ≡ naming_line what.now name.now) }
{
    let mut text = String::from_str(alloc, what)?;
    text.push_str(name)?;
    text.push_str("\n")?;
    Ok(text)
}

/// Returns the line for a span outside the years of the harmonics file, which are the minutes from
/// `first` up to but not including `last`, counted from 1970-01-01T00:00Z.
fn years_text(alloc: Global, first: i64, last: i64) -> Result<String, AllocError>
    ensures { IfOk result (λ text. string_bytes text ≡ years_line first last) }
{
    let from = minute_text(first);
    let to = minute_text(last);
    let mut text = String::from_str(alloc, "refused: out of years: file has ")?;
    text.push_str(from.as_str())?;
    text.push_str(" to ")?;
    text.push_str(to.as_str())?;
    text.push_str("\n")?;
    Ok(text)
}

/// Returns `minute`, counted from 1970-01-01T00:00Z, as text such as `2000-01-10T00:00Z`, or an
/// empty text if it isn't in the years 1 to 9999.
fn minute_text(minute: i64) -> ArrayString<20>
    ensures { result.bytes ≡ minute_text minute }
{
    let mut text = ArrayString::<20>::new();
    if is_moment(minute) {
        write_moment(minute, &mut text);
    }
    text
}

/// Returns true if `minute`, counted from 1970-01-01T00:00Z, is in the years 1 to 9999.
fn is_moment(minute: i64) -> bool
    ensures { result ≡ is_moment minute }
{
    -1_035_593_280 <= minute && minute <= 4_223_371_679
}
