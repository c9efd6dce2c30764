//! The lines of a station: its name, its local time, its datum, and a line for each constituent.

ghost use Rattle.std.specs.Prelude.{◌≡◌, ◌+◌, ◌<◌, ◌≤◌, length, IfOk, OnOk};
ghost use Rattle.harmonics_text.specs.declared.book_parser.BookParser.TheVariants.{Stations};
ghost use Rattle.harmonics_text.specs.Workings.BookParsing.{
  Follows,
  IsBookParser,
  after_nothing,
  with_pair,
  after_pair,
  after_record,
};
ghost use Rattle.harmonics_text.specs.Workings.Absent.{HasRead, with_absent};

use crate::absent::absent_lines;
use crate::column::Column;
use crate::fault::{LineFault, Why};
use crate::lines::trimmed;
use crate::local_time::{LocalTime, local_time_of_line};
use crate::names::name_of;
use crate::record::{Constants, Record, amplitude_and_epoch, datum, into_station};
use decimal_text::Text;
use harmonics_book::Book;
use std::alloc::{AllocError, Global};
use std::mem;

/// Returns the state after `text`, the first line of a station, which is its name.
///
/// # Errors
/// [`Why::TooManyStations`]: if the book has 20,000 stations. [`Why::BadName`]: if the name is bad.
/// [`LineFault::NoMemory`]: if memory runs out.
#[tactic(auto, unfolding(crate::specs::Workings::BookParsing::after_nothing, crate::specs::Rules::station_name_of))]
fn after_nothing(alloc: Global, book: &Book, text: &[u8]) -> Result<Record, LineFault>
    ensures { Follows (λ r. Stations book.now r) result (after_nothing book.now text.now) }
{
    if book.stations.as_slice().len() >= 20_000 {
        return Err(LineFault::Bad(Why::TooManyStations));
    }
    let name = name_of(alloc, trimmed(text), 200)?;
    Ok(Record::Name(name))
}

/// Returns the state after `text`, the line with the local time of the station `name`.
#[tactic(auto, unfolding(crate::specs::Workings::BookParsing::after_record))]
fn after_station_name(alloc: Global, name: Text, text: &[u8]) -> Result<Record, LineFault>
    ensures { (book : Book) → Follows (λ r. Stations book r) result (after_record book (Record.Name name) text.now) }
{
    let local_time = local_time_of_line(alloc, text)?;
    Ok(Record::LocalTime(name, local_time))
}

/// Returns the state after `text`, the line with a station's datum. The lists of amplitudes and
/// epochs get memory for `count` numbers each.
#[tactic(auto, unfolding(crate::specs::Workings::BookParsing::after_record))]
fn after_local_time(
    alloc: Global,
    name: Text,
    local_time: LocalTime,
    count: usize,
    text: &[u8],
) -> Result<Record, LineFault>
    ensures { (book : Book) → Follows (λ r. Stations book r) result
        (after_record book (Record.LocalTime name local_time) text.now) }
{
    let (datum, units) = datum(text)?;
    let amplitude = Column::with_room(alloc, count)?;
    let epoch = Column::with_room(alloc, count)?;
    Ok(Record::Constants(Constants {
        name,
        local_time,
        datum,
        units,
        amplitude,
        epoch,
    }))
}

/// Reads `text`, a station's line for its next constituent, and appends the amplitude and the epoch
/// to `station`.
#[inline]
#[tactic(auto, unfolding(crate::specs::Workings::BookParsing::after_pair))]
fn add_pair(book: &Book, station: &mut Constants, text: &[u8]) -> Result<(), LineFault>
    requires { length station.old.amplitude < length book.now.constituents }
    ensures exact { Follows (λ _. with_pair book.now station.new) result (after_pair book.now station.old text.now) }
    ensures one { IfOk result (λ _. length station.new.amplitude ≡ length station.old.amplitude + 1) }
{
    let name = &book.constituents.as_slice()[station.amplitude.len()].name;
    let (amplitude, epoch) = amplitude_and_epoch(name, text)?;
    station.amplitude.push(amplitude)?;
    station.epoch.push(epoch)?;
    Ok(())
}

/// Returns `station` as an incomplete station if it lacks the amplitude and epoch of a constituent.
/// Otherwise appends it to the stations of `book`, and returns [`Record::Nothing`].
fn with_pair(book: &mut Book, station: Constants) -> Result<Record, AllocError>
    ensures { IfOk result (λ r. Stations book.new r ≡ with_pair book.old station) }
{
    if station.amplitude.len() < book.constituents.as_slice().len() {
        return Ok(Record::Constants(station));
    }
    book.stations.push(into_station(station))?;
    Ok(Record::Nothing)
}

/// Reads `text`, a station's line for its next constituent, and returns the state after it. If this
/// was the last constituent, the station is appended to `book`.
fn after_pair(book: &mut Book, mut station: Constants, text: &[u8]) -> Result<Record, LineFault>
    requires { length station.amplitude < length book.old.constituents }
    ensures { Follows (λ r. Stations book.new r) result (after_pair book.old station text.now) }
{
    add_pair(book, &mut station, text)?;
    Ok(with_pair(book, station)?)
}

/// Reads `text`, the next line of the station of which `begun` has the earlier lines, and returns
/// the state after it. A station that becomes complete is appended to `book`.
#[tactic(auto, unfolding(crate::specs::Workings::BookParsing::after_record))]
fn after_record(
    alloc: Global,
    book: &mut Book,
    begun: Record,
    text: &[u8],
) -> Result<Record, LineFault>
    requires { IsBookParser (Stations book.old begun) }
    ensures { Follows (λ r. Stations book.new r) result (after_record book.old begun text.now) }
{
    match begun {
        Record::Nothing => after_nothing(alloc, book, text),
        Record::Name(name) => after_station_name(alloc, name, text),
        Record::LocalTime(name, local_time) => {
            let count = book.constituents.as_slice().len();
            after_local_time(alloc, name, local_time, count, text)
        }
        Record::Constants(station) => after_pair(book, station, text),
    }
}

/// Does what [`add_station_line`] does, for any line, by moving `begun`. It is a separate function,
/// so that `add_station_line` needs no stack space for what is moved, which would be cleared for
/// each amplitude and epoch.
#[inline(never)]
fn move_on(alloc: Global, book: &mut Book, begun: &mut Record, text: &[u8]) -> Result<(), LineFault>
    requires { IsBookParser (Stations book.old begun.old) }
    ensures { Follows (λ _. Stations book.new begun.new) result (after_record book.old begun.old text.now) }
{
    let next = after_record(alloc, book, mem::replace(begun, Record::Nothing), text)?;
    drop(mem::replace(begun, next));
    Ok(())
}

/// Reads `text`, the next line of a station. `begun` has the values of the station's earlier lines,
/// or [`Record::Nothing`] before its first line, and gets the values of this line. After the
/// station's last line it is appended to `book`, and `begun` is [`Record::Nothing`]. After an error
/// both are unspecified.
///
/// # Errors
/// [`LineFault::Bad`]: with the first rule that the line breaks. [`LineFault::NoMemory`]: if memory
/// runs out.
pub fn add_station_line(
    alloc: Global,
    book: &mut Book,
    begun: &mut Record,
    text: &[u8],
) -> Result<(), LineFault>
    requires { IsBookParser (Stations book.old begun.old) }
    ensures { Follows (λ _. Stations book.new begun.new) result (after_record book.old begun.old text.now) }
{
    if let Record::Constants(station) = begun {
        if station.amplitude.len() + 1 < book.constituents.as_slice().len() {
            return add_pair(book, station, text);
        }
    }
    move_on(alloc, book, begun, text)
}

/// Appends `count` amplitudes and epochs of 0 to `station`, for constituents that it doesn't have.
fn push_absent(station: &mut Constants, count: usize) -> Result<(), AllocError>
    ensures { OnOk result (station.new ≡ with_absent count station.old) }
{
    station.amplitude.push_zeros(count)?;
    station.epoch.push_zeros(count)?;
    Ok(())
}

/// Reads some of the lines `x 0 0` (a constituent that the station doesn't have) at the start of
/// `bytes` into `begun`, which has the values of the station's earlier lines, or reads none.
/// Returns the number of lines read and the bytes after them; each line has at least one byte.
///
/// # Errors
/// [`AllocError`]: if memory runs out.
pub fn add_absent<'a>(
    book: &Book,
    begun: &mut Record,
    bytes: &'a [u8],
) -> Result<(usize, &'a [u8]), AllocError>
    requires { IsBookParser (Stations book.now begun.old) }
    ensures read { IfOk result (λ r. HasRead (Stations book.now begun.old) (Stations book.now begun.new) r.0 bytes.now r.1.now) }
    ensures shorter { IfOk result (λ r. r.0 + length r.1.now ≤ length bytes.now) }
{
    let Record::Constants(station) = begun else {
        return Ok((0, bytes));
    };
    let remaining = book.constituents.as_slice().len() - station.amplitude.len();
    let (count, rest) = absent_lines(bytes, remaining - 1);
    if count == 0 {
        return Ok((0, bytes));
    }
    push_absent(station, count)?;
    Ok((count, rest))
}
