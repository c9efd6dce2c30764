//! The constituents of the sample file: their names and speeds.

ghost use Rattle.std.specs.Prelude.{◌≡◌, ◌+◌, ◌<◌, ◌≤◌, ◌^◌, pos, OnOk};
ghost use Rattle.decimal_text.specs.Writing.{write_of};
ghost use Rattle.sample_tides.specs.File.{name_of, slowest_of, constituent};
ghost use Rattle.sample_tides.specs.Parts.{append};

use crate::sample_writer::SampleWriter;
use std::alloc::AllocError;

/// The number of constituents in the file.
pub(crate) const CONSTITUENTS: u32 = 37;

/// Appends the name of a constituent: M2, S2, N2, K1 and O1 for the numbers 1 to 5, and `C` with
/// the number for the others.
///
/// # Errors
/// [`AllocError`]: if memory runs out.
#[tactic(auto, using(crate::proofs::PartsLemmas::append_twice), unfolding(crate::specs::File::name_of))]
pub(crate) fn append_name(writer: &mut SampleWriter, number: u32) -> Result<(), AllocError>
    ensures { OnOk result (writer.new ≡ append (name_of number) writer.old) }
{
    match number {
        1 => writer.append(b"M2"),
        2 => writer.append(b"S2"),
        3 => writer.append(b"N2"),
        4 => writer.append(b"K1"),
        5 => writer.append(b"O1"),
        _ => {
            writer.append(b"C")?;
            writer.whole(u64::from(number))
        }
    }
}

/// Appends the line of the made-up constituent `number`, 6 or more: its name, and a drawn speed in
/// degrees per hour.
///
/// # Errors
/// [`AllocError`]: if memory runs out.
#[tactic(auto, using(crate::proofs::PartsLemmas::append_twice), unfolding(crate::specs::File::constituent))]
pub(crate) fn append_constituent(writer: &mut SampleWriter, number: u32) -> Result<(), AllocError>
    ensures { OnOk result (writer.new ≡ constituent number writer.old) }
{
    let speed = slowest(number) + writer.draw(40_000_000);
    append_name(writer, number)?;
    writer.append(b" ")?;
    append_speed(writer, speed)?;
    writer.append(b"\n")
}

/// Appends `speed`, in ten-millionths of a degree per hour, as degrees per hour with seven
/// decimals.
fn append_speed(writer: &mut SampleWriter, speed: u32) -> Result<(), AllocError>
    ensures { OnOk result (writer.new ≡ append (write_of (pos speed) 7) writer.old) }
{
    writer.decimal(speed / 10, 6)?;
    writer.whole(u64::from(speed % 10))
}

/// Returns the least speed of constituent `number`, in ten-millionths of a degree per hour: 27
/// degrees per hour if the number is even, else 13.
fn slowest(number: u32) -> u32
    ensures value { result ≡ slowest_of number }
    ensures small { result ≤ 270000000 }
{
    if number % 2 == 0 {
        270_000_000
    } else {
        130_000_000
    }
}
