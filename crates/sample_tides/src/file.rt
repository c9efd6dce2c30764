//! The sample file, from its title to its last station.

ghost use Rattle.std.specs.Prelude.{◌≡◌, ◌≤◌, ◌++◌, codes, decimal, length, IfOk, OnOk};
ghost use Rattle.sample_tides.specs.File.{heading, file, sample_of};
ghost use Rattle.sample_tides.specs.Parts.{line};
ghost use Rattle.decimal_text.specs.declared.limits.TheConstants.{MOST_BYTES};

use crate::constituents::{CONSTITUENTS, append_constituent};
use crate::quantity::Quantity;
use crate::sample_writer::SampleWriter;
use crate::stations::append_station;
use crate::tables::append_table;
use decimal_text::Bytes;
use std::alloc::{AllocError, Global};

/// The number of stations in the file.
const STATIONS: u32 = 200;

/// Equilibrium arguments: 0.00 to 359.99 degrees.
const ARGUMENT: Quantity = Quantity {
    least: 0,
    bound: 36_000,
    places: 2,
};

/// Node factors: 0.8000 to 1.2000.
const FACTOR: Quantity = Quantity {
    least: 8_000,
    bound: 4_001,
    places: 4,
};

/// Returns the sample file for `seed`, the first state of the generator: a harmonics file of 8,192
/// lines with made-up constants, in at most 400,000,000 bytes. It has 37 constituents, the years
/// 2000 to 2029 and 200 stations; every fifth station is a current in knots.
///
/// # Errors
/// [`AllocError`]: if memory runs out.
#[tactic(auto, unfolding(crate::specs::File::sample_of))]
pub fn sample(alloc: Global, seed: u64) -> Result<Bytes, AllocError>
    ensures exact { IfOk result (λ bytes. bytes ≡ sample_of seed) }
    ensures length_bound { IfOk result (λ bytes. length bytes ≤ MOST_BYTES) }
{
    let mut writer = SampleWriter::new(alloc, seed);
    append_file(&mut writer, seed)?;
    Ok(writer.into_bytes())
}

/// Appends the whole file; the writer's generator is in its first state, `seed`.
#[tactic(auto, unfolding(crate::specs::File::file))]
fn append_file(writer: &mut SampleWriter, seed: u64) -> Result<(), AllocError>
    ensures { OnOk result (writer.new ≡ file seed writer.old) }
{
    append_heading(writer, seed)?;
    for number in 6..=CONSTITUENTS {
        append_constituent(writer, number)?;
    }
    writer.line(b"2000")?;
    writer.line(b"30")?;
    append_table(writer, ARGUMENT)?;
    writer.line(b"30")?;
    append_table(writer, FACTOR)?;
    for number in 1..=STATIONS {
        append_station(writer, number)?;
    }
    Ok(())
}

/// Appends the title, a comment with the seed, the number of constituents and the lines of the
/// first five.
#[tactic(auto, unfolding(crate::specs::File::heading))]
fn append_heading(writer: &mut SampleWriter, seed: u64) -> Result<(), AllocError>
    ensures { OnOk result (writer.new ≡ heading seed writer.old) }
{
    append_title(writer, seed)?;
    writer.line(b"37")?;
    writer.line(b"M2 28.9841042")?;
    writer.line(b"S2 30.0000000")?;
    writer.line(b"N2 28.4397295")?;
    writer.line(b"K1 15.0410686")?;
    writer.line(b"O1 13.9430356")
}

/// Appends a comment line with the seed.
#[tactic(auto, using(crate::proofs::PartsLemmas::append_twice))]
fn append_title(writer: &mut SampleWriter, seed: u64) -> Result<(), AllocError>
    ensures { OnOk result (writer.new ≡ line (codes "# sample tides, seed " ++ decimal seed) writer.old) }
{
    writer.append(b"# sample tides, seed ")?;
    writer.whole(seed)?;
    writer.append(b"\n")
}
