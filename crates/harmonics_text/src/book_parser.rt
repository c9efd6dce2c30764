//! The state of a parser that reads a harmonics file line by line into a book.

ghost use Rattle.std.specs.Prelude.{◌≡◌, ◌+◌, ◌<◌, ◌≤◌, ◌^◌, ◌++◌, ◌∷◌, length, false, nat_lt, IfOk, MatchResult};
ghost use Rattle.harmonics_text.specs.Workings.Readers.{has_lf};
ghost use Rattle.harmonics_text.specs.Workings.Absent.{HasRead};
ghost use Rattle.std.specs.Bool.{then_some};
ghost use Rattle.harmonics_text.specs.Rules.{end_of, same_count_of};
ghost use Rattle.harmonics_text.specs.Workings.BookParsing.{
  Fails,
  Follows,
  IsBookParser,
  with_constituents,
  with_angles,
  with_factors,
  new_book,
  after_constituent,
  after_years,
  after_angles,
  after_years_again,
  after_factors,
  after_text,
  after_line,
  book_at,
  book_in,
};

use crate::fault::{LineFault, Why};
use crate::heading::{Heading, constituent, is_end};
use crate::lines::{is_all_blank, is_comment, is_too_long, only_token, without_cr};
use crate::numbers::{count, first_year};
use crate::record::Record;
use crate::scale::Scale;
use crate::station_lines::{add_absent, add_station_line};
use crate::table::{Table, add_table_line, start_table};
use decimal_text::Numbers;
use harmonics_book::{Book, Constituents, Stations};
use std::alloc::{AllocError, Global};
use std::mem;

/// The state of reading a harmonics file: the line that is expected next, which names the variant,
/// and the values of the lines before it. Comments and blank lines change nothing.
#[derive(Drop)]
pub enum BookParser {
    /// The number of constituents is expected; nothing was read before.
    Count,
    /// A constituent is expected. The fields are the number of constituents still to be read, at
    /// least one, and the constituents read before.
    Constituents(u32, Constituents),
    /// The first calendar year is expected.
    FirstYear(Constituents),
    /// The number of years is expected; the second field is the first year.
    Years(Constituents, i32),
    /// A line of the table of equilibrium arguments is expected.
    Angles(Heading, Table),
    /// The `*END*` after the equilibrium arguments is expected.
    AnglesEnd(Heading, Numbers),
    /// The number of years is expected a second time, before the node factors.
    YearsAgain(Heading, Numbers),
    /// A line of the table of node factors is expected; the second field has the equilibrium
    /// arguments.
    Factors(Heading, Numbers, Table),
    /// The second `*END*` is expected; the fields end with the arguments and the factors.
    FactorsEnd(Heading, Numbers, Numbers),
    /// A line of a station is expected. The fields are the book with the complete stations, and the
    /// lines read of the incomplete one.
    Stations(Book, Record),
}

impl BookParser {
    /// Reads `line`, the next line of the file without its LF. Comments and blank lines leave the
    /// state unchanged. After an error the state is unspecified.
    ///
    /// # Errors
    /// [`LineFault::Bad`]: with the first rule that the line breaks. [`LineFault::NoMemory`]: if
    /// memory runs out.
    #[tactic(auto, unfolding(crate::specs::Workings::BookParsing::after_line))]
    fn add_line(&mut self, alloc: Global, line: &[u8]) -> Result<(), LineFault>
        requires { IsBookParser self.old }
        ensures { Follows (λ _. self.new) result (after_line self.old line.now) }
    {
        if is_comment(line) {
            return Ok(());
        }
        if is_too_long(line) {
            return Err(LineFault::Bad(Why::LineTooLong));
        }
        let text = without_cr(line);
        if is_all_blank(text) {
            return Ok(());
        }
        self.add_text(alloc, text)
    }

    /// Reads `line`, the next line without its LF. If lines `x 0 0` (a constituent that the station
    /// doesn't have) follow at the start of `rest`, the bytes after the LF, it may read some of
    /// them too, all at once. Returns how many lines it read after `line`, each of one byte or
    /// more, and the bytes of `rest` after them. After an error the state is unspecified.
    ///
    /// # Errors
    /// [`LineFault::Bad`]: with the first rule that `line` breaks. [`LineFault::NoMemory`]: if
    /// memory runs out.
    pub fn add_lines<'a>(
        &mut self,
        alloc: Global,
        line: &[u8],
        rest: &'a [u8],
    ) -> Result<(u32, &'a [u8]), LineFault>
        requires valid { IsBookParser self.old }
        requires one { has_lf line.now ≡ false }
        requires count_bound { length rest.now < 2 ^ 32 }
        ensures read { MatchResult result
            (λ r. HasRead self.old self.new (1 + r.0) (line.now ++ 10 ∷ rest.now) r.1.now)
            (λ e. Fails e (after_line self.old line.now)) }
        ensures shorter { IfOk result (λ r. r.0 + length r.1.now ≤ length rest.now) }
    {
        self.add_line(alloc, line)?;
        let (absent, after) = self.add_absent(rest)?;
        Ok((absent as u32, after))
    }

    /// Reads some or none of the lines `x 0 0` (a constituent that the station doesn't have) at the
    /// start of `bytes`. Returns the number of lines read and the bytes after them.
    fn add_absent<'a>(&mut self, bytes: &'a [u8]) -> Result<(usize, &'a [u8]), AllocError>
        requires { IsBookParser self.old }
        ensures read { IfOk result (λ r. HasRead self.old self.new r.0 bytes.now r.1.now) }
        ensures shorter { IfOk result (λ r. r.0 + length r.1.now ≤ length bytes.now) }
    {
        if let BookParser::Stations(book, begun) = self {
            return add_absent(book, begun, bytes);
        }
        Ok((0, bytes))
    }

    /// Reads `text`, the next line without its end; it is neither a comment nor blank. A line of a
    /// station is read without moving the book. A line of a table is read without moving the table
    /// unless the table may end with it. After an error the state is unspecified.
    fn add_text(&mut self, alloc: Global, text: &[u8]) -> Result<(), LineFault>
        requires { IsBookParser self.old }
        ensures { Follows (λ _. self.new) result (after_text self.old text.now) }
    {
        if let BookParser::Stations(book, begun) = self {
            return add_station_line(alloc, book, begun, text);
        }
        if let BookParser::Angles(heading, table) = self {
            if has_more(heading, table) {
                return add_table_line(table, heading, Scale::Angle, text);
            }
        }
        if let BookParser::Factors(heading, _, table) = self {
            if has_more(heading, table) {
                return add_table_line(table, heading, Scale::Factor, text);
            }
        }
        self.move_on(alloc, text)
    }

    /// Does what `add_text` does, for any state, by moving the state. It is a separate function, so
    /// that `add_text` needs no stack space for the moved state, which would be cleared for each
    /// line of a station.
    #[inline(never)]
    fn move_on(&mut self, alloc: Global, text: &[u8]) -> Result<(), LineFault>
        requires { IsBookParser self.old }
        ensures { Follows (λ _. self.new) result (after_text self.old text.now) }
    {
        let next = mem::replace(self, BookParser::Count).after_text(alloc, text)?;
        drop(mem::replace(self, next));
        Ok(())
    }

    /// Returns the state after `text`, a line without its end that is neither a comment nor blank.
    #[tactic(auto, unfolding(crate::specs::Workings::BookParsing::after_text, crate::specs::Workings::BookParsing::after_count))]
    fn after_text(self, alloc: Global, text: &[u8]) -> Result<BookParser, LineFault>
        requires { IsBookParser self }
        ensures { Follows (λ d. d) result (after_text self text.now) }
    {
        match self {
            BookParser::Count => {
                let remaining = count(text)?;
                Ok(BookParser::Constituents(remaining, Constituents::empty(alloc)))
            }
            BookParser::Constituents(remaining, earlier) => after_constituent(
                alloc, remaining, earlier, text,
            ),
            BookParser::FirstYear(constituents) => {
                let first_year = first_year(text)?;
                Ok(BookParser::Years(constituents, first_year))
            }
            BookParser::Years(constituents, first_year) => {
                after_years(alloc, constituents, first_year, text)
            }
            BookParser::Angles(heading, table) => after_angles(heading, table, text),
            BookParser::AnglesEnd(heading, angles) => {
                check_end(text).and(Ok(BookParser::YearsAgain(heading, angles)))
            }
            BookParser::YearsAgain(heading, angles) => after_years_again(
                alloc, heading, angles, text,
            ),
            BookParser::Factors(heading, angles, table) => {
                after_factors(heading, angles, table, text)
            }
            BookParser::FactorsEnd(heading, angles, factors) => {
                let book = new_book(alloc, heading, angles, factors);
                check_end(text).and(Ok(BookParser::Stations(book, Record::Nothing)))
            }
            BookParser::Stations(mut book, mut begun) => {
                let read = add_station_line(alloc, &mut book, &mut begun, text);
                read.and(Ok(BookParser::Stations(book, begun)))
            }
        }
    }

    /// Returns the book if the file may end here, which is so after a complete station, or before
    /// the first one but after the second `*END*`. Returns `None` in any other state.
    pub fn into_book(self) -> Option<Book>
        ensures { result ≡ book_in self }
    {
        match self {
            BookParser::Stations(book, begun) => {
                let complete = is_complete(&begun);
                drop(begun);
                complete.then_some(book)
            }
            earlier => {
                drop(earlier);
                None
            }
        }
    }
}

/// Returns true if the constituent whose values `table` expects isn't the last one of `heading`.
fn has_more(heading: &Heading, table: &Table) -> bool
    requires here { table.now.index < length heading.now.constituents }
    requires count_bound { length heading.now.constituents ≤ 500 }
    ensures { result ≡ nat_lt (table.now.index + 1) (length heading.now.constituents) }
{
    table.index + 1 < heading.constituents.as_slice().len()
}

/// Returns true if no line of an incomplete station was read.
fn is_complete(begun: &Record) -> bool
    ensures { (book : Book) → then_some result book ≡ book_at book begun.now }
{
    match begun {
        Record::Nothing => true,
        _ => false,
    }
}

/// Checks that the line `text` is the token `*END*` and nothing else; otherwise the fault is
/// [`Why::NoEnd`].
#[tactic(auto, unfolding(crate::specs::Rules::end_of))]
fn check_end(text: &[u8]) -> Result<(), LineFault>
    ensures { Follows (λ u. u) result (end_of text.now) }
{
    let Some(token) = only_token(text) else {
        return Err(LineFault::Bad(Why::NoEnd));
    };
    if is_end(token) {
        Ok(())
    } else {
        Err(LineFault::Bad(Why::NoEnd))
    }
}

/// Returns the state after `text`, the line of a constituent; `remaining` counts the constituents
/// still to be read, this one included.
#[tactic(auto, unfolding(crate::specs::Workings::BookParsing::after_constituent))]
fn after_constituent(
    alloc: Global,
    remaining: u32,
    mut earlier: Constituents,
    text: &[u8],
) -> Result<BookParser, LineFault>
    ensures { Follows (λ d. d) result (after_constituent remaining earlier text.now) }
{
    let next = constituent(alloc, &earlier, text)?;
    earlier.push(next)?;
    if remaining > 1 {
        Ok(BookParser::Constituents(remaining - 1, earlier))
    } else {
        Ok(BookParser::FirstYear(earlier))
    }
}

/// Returns the state after `text`, the line with the number of years of the first table.
#[tactic(auto, unfolding(crate::specs::Workings::BookParsing::after_years))]
fn after_years(
    alloc: Global,
    constituents: Constituents,
    first_year: i32,
    text: &[u8],
) -> Result<BookParser, LineFault>
    ensures { Follows (λ d. d) result (after_years constituents first_year text.now) }
{
    let years = count(text)?;
    let heading = Heading {
        constituents,
        first_year,
        years,
    };
    Ok(BookParser::Angles(heading, start_table(alloc)))
}

/// Returns the state with `table`, the equilibrium arguments read so far: `*END*` is expected
/// next if it is complete, else its next line.
fn with_angles(heading: Heading, table: Table) -> BookParser
    ensures { result ≡ with_angles heading table }
{
    if table.index < heading.constituents.as_slice().len() {
        BookParser::Angles(heading, table)
    } else {
        BookParser::AnglesEnd(heading, table.values.into_numbers())
    }
}

/// Returns the state after `text`, a line of the table of equilibrium arguments.
#[tactic(auto, unfolding(crate::specs::Workings::BookParsing::after_angles))]
fn after_angles(heading: Heading, mut table: Table, text: &[u8]) -> Result<BookParser, LineFault>
    requires here { table.index < length heading.constituents }
    requires count_bound { length heading.constituents ≤ 500 }
    ensures { Follows (λ d. d) result (after_angles heading table text.now) }
{
    let read = add_table_line(&mut table, &heading, Scale::Angle, text);
    read.and(Ok(with_angles(heading, table)))
}

/// Checks that the line `text` is the number `years`; the fault is [`Why::BadCount`] if it isn't a
/// number from 1 to 500, and [`Why::YearsDiffer`] if it is another number.
#[tactic(auto, unfolding(crate::specs::Rules::same_count_of))]
fn check_years(years: u32, text: &[u8]) -> Result<(), LineFault>
    ensures { Follows (λ u. u) result (same_count_of years text.now) }
{
    if count(text)? == years {
        Ok(())
    } else {
        Err(LineFault::Bad(Why::YearsDiffer))
    }
}

/// Returns the state after `text`, the line with the number of years of the second table.
#[tactic(auto, unfolding(crate::specs::Workings::BookParsing::after_years_again))]
fn after_years_again(
    alloc: Global,
    heading: Heading,
    angles: Numbers,
    text: &[u8],
) -> Result<BookParser, LineFault>
    ensures { Follows (λ d. d) result (after_years_again heading angles text.now) }
{
    let read = check_years(heading.years, text);
    read.and(Ok(BookParser::Factors(heading, angles, start_table(alloc))))
}

/// Returns the state with `table`, the node factors read so far: `*END*` is expected next if it
/// is complete, else its next line.
fn with_factors(heading: Heading, angles: Numbers, table: Table) -> BookParser
    ensures { result ≡ with_factors heading angles table }
{
    if table.index < heading.constituents.as_slice().len() {
        BookParser::Factors(heading, angles, table)
    } else {
        BookParser::FactorsEnd(heading, angles, table.values.into_numbers())
    }
}

/// Returns the state after `text`, a line of the table of node factors.
#[tactic(auto, unfolding(crate::specs::Workings::BookParsing::after_factors))]
fn after_factors(
    heading: Heading,
    angles: Numbers,
    mut table: Table,
    text: &[u8],
) -> Result<BookParser, LineFault>
    requires here { table.index < length heading.constituents }
    requires count_bound { length heading.constituents ≤ 500 }
    ensures { Follows (λ d. d) result (after_factors heading angles table text.now) }
{
    let read = add_table_line(&mut table, &heading, Scale::Factor, text);
    read.and(Ok(with_factors(heading, angles, table)))
}

/// Returns the book with these constituents, years and tables, and without a station.
fn new_book(alloc: Global, heading: Heading, angles: Numbers, factors: Numbers) -> Book
    ensures { result ≡ new_book heading angles factors }
{
    Book {
        constituents: heading.constituents,
        first_year: heading.first_year,
        years: heading.years,
        angles,
        factors,
        stations: Stations::empty(alloc),
    }
}
