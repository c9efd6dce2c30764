//! The tables of the sample file, with a value for each constituent and year.

ghost use Rattle.std.specs.Prelude.{◌≡◌, OnOk};
ghost use Rattle.sample_tides.specs.File.{value, values, table};

use crate::constituents::{CONSTITUENTS, append_name};
use crate::quantity::Quantity;
use crate::sample_writer::SampleWriter;
use std::alloc::AllocError;

/// The number of years in each table.
const YEARS: u32 = 30;

/// Appends a table and its `*END*`: for each constituent a line with its name and a line with drawn
/// values of `quantity`, one for each of 30 years.
///
/// # Errors
/// [`AllocError`]: if memory runs out.
#[tactic(auto, unfolding(crate::specs::File::table))]
pub(crate) fn append_table(writer: &mut SampleWriter, quantity: Quantity) -> Result<(), AllocError>
    ensures { OnOk result (writer.new ≡ table (value quantity.least quantity.bound quantity.places) writer.old) }
{
    for number in 1..=CONSTITUENTS {
        append_name(writer, number)?;
        writer.append(b"\n")?;
        append_values(writer, quantity)?;
    }
    writer.line(b"*END*")
}

/// Appends a line with drawn values of `quantity`, one for each of 30 years.
#[tactic(auto, unfolding(crate::specs::File::values))]
fn append_values(writer: &mut SampleWriter, quantity: Quantity) -> Result<(), AllocError>
    ensures { OnOk result (writer.new ≡ values (value quantity.least quantity.bound quantity.places) writer.old) }
{
    append_value(writer, quantity)?;
    for _year in 1..YEARS {
        writer.append(b" ")?;
        append_value(writer, quantity)?;
    }
    writer.append(b"\n")
}

/// Appends one drawn value of `quantity`.
#[tactic(auto, unfolding(crate::specs::File::value))]
fn append_value(writer: &mut SampleWriter, quantity: Quantity) -> Result<(), AllocError>
    ensures { OnOk result (writer.new ≡ value quantity.least quantity.bound quantity.places writer.old) }
{
    let number = quantity.least + writer.draw(quantity.bound);
    writer.decimal(number, quantity.places)
}
