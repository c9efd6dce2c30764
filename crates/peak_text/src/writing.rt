//! Writing certificates of a highest water as text.

ghost use Rattle.std.specs.Prelude.{◌≡◌, ◌++◌, map, IfOk, OnOk};
ghost use Rattle.std.specs.Fmt.{signed_decimal};
ghost use Rattle.zone_time.specs.Moments.{IsMoment};
ghost use Rattle.cert_text.specs.Texts.{ended, joined};
ghost use Rattle.peak_text.specs.PeakTexts.{
  IsPeakCertificate,
  peak_title,
  at_line_of,
  value_line_of,
  peak_cell_line_of,
  peak_head_lines_of,
  peak_text,
};

use crate::certificate::PeakCertificate;
use arrayvec::ArrayString;
use cert_text::{push_station_lines, push_text};
use decimal_text::Bytes;
use highest_water::PeakCell;
use itoa::Buffer;
use std::alloc::{AllocError, Global};
use zone_time::write_moment;

/// Appends the line with the minute `at` of the highest water, counted from 1970-01-01T00:00Z, with
/// its LF.
#[tactic(auto, unfolding(crate::specs::PeakTexts::at_line_of))]
fn push_at(out: &mut Vec<u8>, at: i64) -> Result<(), AllocError>
    requires { IsMoment at }
    ensures { OnOk result (out.new.items ≡ out.old.items ++ ended (at_line_of at)) }
{
    let mut text = ArrayString::new();
    write_moment(at, &mut text);
    push_text(out, "at ")?;
    push_text(out, text.as_str())?;
    push_text(out, "\n")
}

/// Appends a line of `word` and `number` in decimal, with its LF.
fn push_number(out: &mut Vec<u8>, word: &str, number: i128) -> Result<(), AllocError>
    ensures { OnOk result (out.new.items ≡ out.old.items ++ ended (word.now ++ signed_decimal number)) }
{
    let mut buffer = Buffer::new();
    push_text(out, word)?;
    push_text(out, buffer.format(number))?;
    push_text(out, "\n")
}

/// Appends the line of `cell`, with its LF.
#[tactic(auto, unfolding(crate::specs::PeakTexts::peak_cell_line_of))]
fn push_cell(out: &mut Vec<u8>, cell: PeakCell) -> Result<(), AllocError>
    ensures { OnOk result (out.new.items ≡ out.old.items ++ ended (peak_cell_line_of cell)) }
{
    match cell {
        PeakCell::Under(minutes) => push_number(out, "u ", i128::from(minutes)),
        PeakCell::Single => push_text(out, "m\n"),
    }
}

/// Appends the line with the highest water's `value`, with its LF.
#[tactic(auto, unfolding(crate::specs::PeakTexts::value_line_of))]
fn push_value(out: &mut Vec<u8>, value: i128) -> Result<(), AllocError>
    ensures { OnOk result (out.new.items ≡ out.old.items ++ ended (value_line_of value)) }
{
    push_number(out, "value ", value)
}

/// Appends the first line, the title, with its LF.
#[tactic(auto, unfolding(crate::specs::PeakTexts::peak_title))]
fn push_title(out: &mut Vec<u8>) -> Result<(), AllocError>
    ensures { OnOk result (out.new.items ≡ out.old.items ++ ended peak_title) }
{
    push_text(out, "peak certificate 1\n")
}

/// Appends the first six lines of `cert`, up to the value of the highest water.
fn push_head(out: &mut Vec<u8>, cert: &PeakCertificate) -> Result<(), AllocError>
    requires { IsPeakCertificate cert.now }
    ensures { OnOk result (out.new.items ≡ out.old.items ++ joined (peak_head_lines_of cert.now)) }
{
    push_title(out)?;
    push_station_lines(out, &cert.station, cert.begin, cert.end)?;
    push_at(out, cert.peak.at)?;
    push_value(out, cert.peak.value)
}

/// Appends a line for each of `cells`.
fn push_cells(out: &mut Vec<u8>, cells: &[PeakCell]) -> Result<(), AllocError>
    ensures { OnOk result (out.new.items ≡ out.old.items ++ joined (map peak_cell_line_of cells.now)) }
{
    for cell in cells {
        push_cell(out, *cell)?;
    }
    Ok(())
}

/// Returns the text of `cert`, a certificate of a highest water of which the fields must be in the
/// ranges that [`PeakCertificate`] lists.
///
/// # Errors
/// [`AllocError`] if memory runs out.
#[tactic(auto, unfolding(crate::specs::PeakTexts::peak_text, cert_text::specs::Lines::last_line))]
pub fn write_peak(alloc: Global, cert: &PeakCertificate) -> Result<Bytes, AllocError>
    requires { IsPeakCertificate cert.now }
    ensures { IfOk result (λ text. text ≡ peak_text cert.now) }
{
    let mut out = Vec::new(alloc);
    push_head(&mut out, cert)?;
    push_cells(&mut out, cert.peak.cells.as_slice())?;
    push_text(&mut out, "done\n")?;
    Ok(Bytes::from_vec(out))
}
