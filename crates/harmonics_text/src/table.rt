//! The table of equilibrium arguments and the table of node factors.

ghost use Rattle.std.specs.Prelude.{◌≡◌, ◌<◌, ◌≤◌, length, IfOk};
ghost use Rattle.harmonics_text.specs.Lines.{tokens};
ghost use Rattle.harmonics_text.specs.Rules.{named, values_from};
ghost use Rattle.harmonics_text.specs.Workings.BookParsing.{
  Follows,
  at_place,
  pushed,
  new_table,
  after_values,
  after_name,
  after_table_line,
};

use crate::column::Column;
use crate::fault::{LineFault, Why};
use crate::heading::Heading;
use crate::lines::{next_token, only_token};
use crate::names::is_name;
use crate::numbers::number;
use crate::plain::plain_number;
use crate::scale::Scale;
use decimal_text::Text;
use std::alloc::{AllocError, Global};

/// A table that was read in part: for each constituent a line with its name, and its value for each
/// year on one line or more.
#[derive(Drop)]
pub struct Table {
    /// The index, from 0, of the constituent whose name or values are expected next.
    pub index: usize,
    /// How many values of this constituent are still to be read: 0 if its name is expected next.
    pub remaining: u32,
    /// The values read so far, in the unit of the table: for each constituent in order, a value
    /// for each year.
    pub values: Column,
}

/// Returns a table of which no line was read. It doesn't allocate.
pub fn start_table(alloc: Global) -> Table
    ensures { result ≡ new_table }
{
    Table {
        index: 0,
        remaining: 0,
        values: Column::new(alloc),
    }
}

/// Appends the decimal `token`, in the unit of `scale`, to `values`.
#[tactic(auto, unfolding(crate::specs::Workings::BookParsing::pushed))]
fn push_number(values: &mut Column, scale: Scale, token: &[u8]) -> Result<(), LineFault>
    ensures { Follows (λ _. values.new) result (pushed scale values.old token.now) }
{
    values.push(number(token, scale)?)?;
    Ok(())
}

/// Returns the constituent's index in a table after a line of values: `index`, or the next one if
/// `remaining`, the number of values it still lacks, is 0.
fn next_place(remaining: u32, index: usize) -> usize
    requires { index < 500 }
    ensures { result ≡ at_place remaining index }
{
    if remaining == 0 { index + 1 } else { index }
}

/// Reads values at the start of the line `text` into `table`, as long as they are in the usual form
/// that `plain_number` reads. Returns the bytes after the last value read.
fn add_plain_values<'a>(
    table: &mut Table,
    scale: Scale,
    text: &'a [u8],
) -> Result<&'a [u8], AllocError>
    ensures { IfOk result (λ rest. (table.new.index ≡ table.old.index)
        × (values_from scale table.new.remaining table.new.values (tokens rest.now)
        ≡ values_from scale table.old.remaining table.old.values (tokens text.now))) }
{
    let mut rest = text;
    'plain: while table.remaining > 0 {
        match plain_number(rest, scale) {
            Some((number, after)) => {
                table.values.push(number)?;
                table.remaining -= 1;
                rest = after;
            }
            None => return Ok(rest),
        }
    }
    Ok(rest)
}

/// Reads the values in `text`, the rest of a line, into `table`, in any form of a decimal.
#[tactic(auto, unfolding(crate::specs::Workings::BookParsing::after_values))]
fn add_other_values(table: &mut Table, scale: Scale, text: &[u8]) -> Result<(), LineFault>
    requires { table.old.index < 500 }
    ensures { Follows (λ _. table.new) result (after_values scale table.old text.now) }
{
    let mut rest = text;
    while let Some((token, after)) = next_token(rest) {
        if table.remaining == 0 {
            return Err(LineFault::Bad(Why::BadNumber));
        }
        push_number(&mut table.values, scale, token)?;
        table.remaining -= 1;
        rest = after;
    }
    table.index = next_place(table.remaining, table.index);
    Ok(())
}

/// Reads the values in the line `text` into `table`.
fn add_values(table: &mut Table, scale: Scale, text: &[u8]) -> Result<(), LineFault>
    requires { table.old.index < 500 }
    ensures { Follows (λ _. table.new) result (after_values scale table.old text.now) }
{
    let rest = add_plain_values(table, scale, text)?;
    add_other_values(table, scale, rest)
}

/// Checks that the line `text` is the constituent's name and nothing else; otherwise the fault is
/// [`Why::WrongConstituent`].
#[tactic(auto, unfolding(crate::specs::Rules::named))]
fn check_name(name: &Text, text: &[u8]) -> Result<(), Why>
    ensures { result ≡ named name.now text.now }
{
    let Some(token) = only_token(text) else {
        return Err(Why::WrongConstituent);
    };
    if is_name(token, name) {
        Ok(())
    } else {
        Err(Why::WrongConstituent)
    }
}

/// Reads `text`, the next line of an incomplete `table`: a constituent's name, or values in the
/// unit of `scale`. `heading` gives the constituents and the number of years. After an error the
/// table is unspecified.
///
/// # Errors
/// [`Why::WrongConstituent`]: if a name is expected and the line isn't the next constituent's.
/// [`Why::BadNumber`], [`Why::TooFine`] and [`Why::OutOfRange`]: for the first bad value;
/// `BadNumber` also if the line has too many values. [`LineFault::NoMemory`]: if memory runs out.
#[tactic(auto, unfolding(crate::specs::Workings::BookParsing::after_table_line, crate::specs::Workings::BookParsing::after_name))]
pub fn add_table_line(
    table: &mut Table,
    heading: &Heading,
    scale: Scale,
    text: &[u8],
) -> Result<(), LineFault>
    requires here { table.old.index < length heading.now.constituents }
    requires count_bound { length heading.now.constituents ≤ 500 }
    ensures { Follows (λ _. table.new) result (after_table_line scale heading.now table.old text.now) }
{
    if table.remaining > 0 {
        return add_values(table, scale, text);
    }
    check_name(&heading.constituents.as_slice()[table.index].name, text)?;
    table.remaining = heading.years;
    Ok(())
}
