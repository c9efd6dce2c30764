//! Reading certificates of a highest water from text.

ghost use Rattle.std.specs.Prelude.{◌≤◌, length, IfOk};
ghost use Rattle.decimal_text.specs.Expected.{EqualsUnlessNoMemory};
ghost use Rattle.decimal_text.specs.declared.limits.TheConstants.{MOST_BYTES};
ghost use Rattle.cert_text.specs.ByLine.{Takes, TakesExactly, line_of};
ghost use Rattle.peak_text.specs.PeakTexts.{IsPeakCertificate};
ghost use Rattle.peak_text.specs.PeakSpelling.{ReadsPeak};
ghost use Rattle.peak_text.specs.PeakReadings.{cells_part, peak_part, peak_of, is_out_of_memory};
ghost use Rattle.peak_text.specs.Workings.PeakLineReading.{value_of};

use crate::certificate::PeakCertificate;
use crate::fault::PeakFault;
use crate::line_reading::{cell_of, value_of};
use cert_text::{CertFault, ItemForm, LineCursor, items, moment, read_last, station, word};
use decimal_text::Text;
use highest_water::{Peak, PeakCell, PeakCells};
use std::alloc::Global;

/// How the line of a cell is read.
struct CellForm;

impl ItemForm for CellForm {
    ghost use Rattle.peak_text.specs.Workings.PeakLineReading.{cell_of};

    type Item = PeakCell;

    ghost item_of = { λ _. cell_of };

    fn read_item(&self, line: &[u8]) -> Option<PeakCell> {
        cell_of(line)
    }
}

/// Reads the next line of `lines`, such as `value -12`, and returns the value. Fails with the
/// number of this line if it is another line or is missing.
fn read_value(lines: &mut LineCursor<'_>) -> Result<i128, CertFault>
    ensures { TakesExactly (line_of value_of) lines.old lines.new result }
{
    value_of(lines.next()?).ok_or(lines.fault())
}

/// Reads the cells, one on each line, and the last line, `done`, after which no byte may follow.
fn read_cells(alloc: Global, lines: &mut LineCursor<'_>) -> Result<PeakCells, CertFault>
    ensures { Takes cells_part lines.old lines.new result }
{
    let cells = items(alloc, lines, &CellForm)?;
    read_last(lines)?;
    Ok(PeakCells::from_vec(cells))
}

/// Reads a whole certificate, up to the end of the text.
#[tactic(auto, unfolding(crate::specs::PeakTexts::peak_title))]
fn read_lines(alloc: Global, lines: &mut LineCursor<'_>) -> Result<PeakCertificate, CertFault>
    ensures { Takes peak_part lines.old lines.new result }
{
    word(lines, "peak certificate 1")?;
    let station = station(lines)?;
    let begin = moment(lines, "begin ")?;
    let end = moment(lines, "end ")?;
    let at = moment(lines, "at ")?;
    let value = read_value(lines)?;
    let cells = read_cells(alloc, lines)?;
    Ok(PeakCertificate {
        station: Text::from_str(alloc, station)?,
        begin,
        end,
        peak: Peak { at, value, cells },
    })
}

/// Returns the certificate of a highest water with the text `bytes`, of at most 400,000,000 bytes.
/// The time is linear in the number of bytes.
///
/// # Errors
/// [`PeakFault::NotACertificate`] if `bytes` aren't the text of a certificate of a highest water.
/// Its line is the first, counted from 1, such that no certificate begins with the lines up to and
/// including it. Bytes after the last LF aren't a line; if the bytes end too early, the line is one
/// past the last. [`PeakFault::NoMemory`] if memory runs out, in place of any other result.
pub fn read_peak(alloc: Global, bytes: &[u8]) -> Result<PeakCertificate, PeakFault>
    requires { length bytes.now ≤ MOST_BYTES }
    ensures exact { EqualsUnlessNoMemory is_out_of_memory (peak_of bytes.now) result }
    ensures reads { ReadsPeak bytes.now result }
    ensures valid { IfOk result IsPeakCertificate }
{
    Ok(read_lines(alloc, &mut LineCursor::new(bytes))?)
}
