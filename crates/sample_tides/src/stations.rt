//! The stations of the sample file and their constants.

ghost use Rattle.std.specs.Prelude.{◌≡◌, ◌++◌, codes, decimal, OnOk};
ghost use Rattle.sample_tides.specs.File.{hundredths, meridian, level, datum, constants, station};
ghost use Rattle.sample_tides.specs.Parts.{append, line};

use crate::constituents::{CONSTITUENTS, append_name};
use crate::sample_writer::SampleWriter;
use std::alloc::AllocError;

/// Appends the lines of station `number`, counted from 1: its name, its meridian, its datum and a
/// line for each constituent.
///
/// # Errors
/// [`AllocError`]: if memory runs out.
#[tactic(auto, unfolding(crate::specs::File::station))]
pub(crate) fn append_station(writer: &mut SampleWriter, number: u32) -> Result<(), AllocError>
    ensures { OnOk result (writer.new ≡ station number writer.old) }
{
    append_title(writer, number)?;
    append_meridian(writer)?;
    append_datum(writer, number)?;
    for constituent in 1..=CONSTITUENTS {
        append_constants(writer, constituent)?;
    }
    Ok(())
}

/// Appends the line with the station's name.
#[tactic(auto, using(crate::proofs::PartsLemmas::append_twice))]
fn append_title(writer: &mut SampleWriter, number: u32) -> Result<(), AllocError>
    ensures { OnOk result (writer.new ≡ line (codes "Station " ++ decimal number) writer.old) }
{
    writer.append(b"Station ")?;
    writer.whole(u64::from(number))?;
    writer.append(b"\n")
}

/// Appends the line with a station's meridian (local time less universal time), a drawn number of
/// hours from -12 to 12.
#[tactic(auto, using(crate::proofs::PartsLemmas::append_twice), unfolding(crate::specs::File::meridian))]
fn append_meridian(writer: &mut SampleWriter) -> Result<(), AllocError>
    ensures { OnOk result (writer.new ≡ meridian writer.old) }
{
    let hours = i64::from(writer.draw(25)) - 12;
    writer.signed(hours, 0)?;
    writer.append(b":00 :UTC")?;
    writer.append(b"\n")
}

/// Appends the line with the datum, a mean level and its unit: 0 knots if `number` is a multiple of
/// 5, else a drawn number of feet.
#[tactic(auto, unfolding(crate::specs::File::datum))]
fn append_datum(writer: &mut SampleWriter, number: u32) -> Result<(), AllocError>
    ensures { OnOk result (writer.new ≡ datum number writer.old) }
{
    if number % 5 == 0 {
        writer.line(b"0.00 knots")
    } else {
        append_level(writer)
    }
}

/// Appends the line with a drawn mean level from 0.00 to 10.00 feet.
#[tactic(auto, using(crate::proofs::PartsLemmas::append_twice), unfolding(crate::specs::File::level))]
fn append_level(writer: &mut SampleWriter) -> Result<(), AllocError>
    ensures { OnOk result (writer.new ≡ level writer.old) }
{
    let feet = writer.draw(1_001);
    append_hundredths(writer, feet)?;
    writer.append(b" feet")?;
    writer.append(b"\n")
}

/// Appends a station's line for a constituent, counted from 1: a drawn amplitude, below 3 units for
/// the first five constituents and below 0.3 for the others, and a drawn epoch below 360 degrees.
/// Each seventh constituent is absent.
#[tactic(auto, using(crate::proofs::PartsLemmas::append_twice), unfolding(crate::specs::File::constants))]
fn append_constants(writer: &mut SampleWriter, constituent: u32) -> Result<(), AllocError>
    ensures { OnOk result (writer.new ≡ constants constituent writer.old) }
{
    if constituent % 7 == 0 {
        return writer.line(b"x 0 0");
    }
    let amplitude = writer.draw(if constituent <= 5 { 300 } else { 30 });
    let epoch = writer.draw(36_000);
    append_name(writer, constituent)?;
    writer.append(b" ")?;
    append_hundredths(writer, amplitude)?;
    writer.append(b" ")?;
    append_hundredths(writer, epoch)?;
    writer.append(b"\n")
}

/// Appends `number / 100` with two decimal places.
#[tactic(auto, unfolding(crate::specs::File::hundredths))]
fn append_hundredths(writer: &mut SampleWriter, number: u32) -> Result<(), AllocError>
    ensures { OnOk result (writer.new ≡ append (hundredths number) writer.old) }
{
    writer.decimal(number, 2)
}
