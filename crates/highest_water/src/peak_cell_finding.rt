//! The check of one cell.

ghost use Rattle.std.specs.Prelude.{◌≡◌, ◌^◌, ◌<◌, pos, ◌+ℤ◌, unsigned_abs};
ghost use Rattle.curve_law.specs.CurveSpec.{IsSpan};
ghost use Rattle.highest_water.specs.Covers.{minutes_of};
ghost use Rattle.highest_water.specs.Verdicts.{cell_verdict};
ghost use Rattle.highest_water.specs.Workings.Findings.{under_finding, value_finding, single_finding};

use crate::higher::is_higher;
use crate::peak_cell::PeakCell;
use crate::under::is_under;
use crate::verdict::PeakVerdict;
use curve_law::{Curve, Point};

/// Returns the verdict on `cell`, which has the number `number`, counted from 1, and begins at the
/// point `at`. `end_value` is the curve's value at the cell's end, and `highest` is the claimed
/// highest water, with a value below 10^37 in size.
pub fn finding_on<C: Curve>(
    curve: &C,
    highest: Point,
    number: u32,
    cell: PeakCell,
    at: Point,
    end_value: i128,
) -> PeakVerdict
    requires size { unsigned_abs highest.value < 10 ^ 37 }
    requires span { IsSpan (C.state curve.now).curve_model.curve_spec at.minute (minutes_of cell) }
    requires value { at.value ≡ (C.state curve.now).curve_model.curve_spec.track.value at.minute }
    requires end_value { end_value ≡ (C.state curve.now).curve_model.curve_spec.track.value (at.minute +ℤ pos (minutes_of cell)) }
    ensures { result ≡ cell_verdict (C.state curve.now).curve_model.curve_spec highest.minute highest.value at.minute number cell }
{
    match cell {
        PeakCell::Under(minutes) => {
            under_finding(number, is_under(curve, highest, at, minutes, end_value))
        }
        PeakCell::Single => single_finding(highest, number, at),
    }
}

/// Returns the verdict on the cell `number`, which claims several minutes under the highest water;
/// `is_under` says whether they are.
fn under_finding(number: u32, is_under: bool) -> PeakVerdict
    ensures { result ≡ under_finding number is_under }
{
    if is_under {
        PeakVerdict::Accepted
    } else {
        PeakVerdict::NotUnder { cell: number }
    }
}

/// Returns the verdict on the cell `number`, the single minute of the point `at`: the minute of the
/// highest water must have the claimed value, and any other minute must not be higher.
fn single_finding(highest: Point, number: u32, at: Point) -> PeakVerdict
    ensures { result ≡ single_finding highest number at }
{
    if at.minute == highest.minute {
        return value_finding(highest.value, at.value);
    }
    if is_higher(highest, at) {
        return PeakVerdict::Above { cell: number };
    }
    PeakVerdict::Accepted
}

/// Returns the verdict on the value of the highest water: `written` is the claimed value, and
/// `computed` the curve's.
fn value_finding(written: i128, computed: i128) -> PeakVerdict
    ensures { result ≡ value_finding written computed }
{
    if written == computed {
        PeakVerdict::Accepted
    } else {
        PeakVerdict::WrongValue { written, computed }
    }
}
