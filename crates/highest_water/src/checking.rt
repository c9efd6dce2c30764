//! The check of a highest water, however it was made.

ghost use Rattle.std.specs.Prelude.{◌≡◌, ◌+◌, ◌<◌, ◌≤◌, ◌^◌, pos, ◌+ℤ◌, ◌-ℤ◌, ◌≤ℤ◌, unsigned_abs, length};
ghost use Rattle.curve_law.specs.CurveSpec.{IsSpan};
ghost use Rattle.curve_law.specs.CurveStates.{evaluated_once};
ghost use Rattle.highest_water.specs.declared.verdict.PeakVerdict.{PeakVerdict};
ghost use Rattle.highest_water.specs.Peaks.{IsHighest};
ghost use Rattle.highest_water.specs.Covers.{minutes_of, all_minutes};
ghost use Rattle.highest_water.specs.Verdicts.{cells_verdict, is_inside, peak_verdict};

use crate::lengths::{covered_by, minutes_of};
use crate::peak::Peak;
use crate::peak_cell::PeakCell;
use crate::peak_cell_finding::finding_on;
use crate::verdict::PeakVerdict;
use curve_law::{Curve, Point, point_at};

/// Checks whether `peak` is the highest water of the minutes from `begin` up to but not including
/// `end`: first whether its cells have as many minutes as the span, then whether its minute is in
/// the span, and then each cell in turn. If `peak` is accepted, its minute is the first with the
/// greatest value, and its value is this value.
///
/// The caller ensures that `begin` and `end` are both minutes of `curve` and `begin` isn't after
/// `end`, that the value of `peak` is below 10^37 in size, that there are fewer than 2^32 cells,
/// and that the cells and the earlier evaluations of the curve together number at most 2^62. The
/// call evaluates the curve at most once per cell, plus once, and nothing else about it changes.
pub fn check_peak<C: Curve>(curve: &mut C, peak: &Peak, begin: i64, end: i64) -> PeakVerdict
    requires forward { begin ≤ℤ end }
    requires first { (C.state curve.old).curve_model.curve_spec.first ≤ℤ begin }
    requires last { end ≤ℤ (C.state curve.old).curve_model.curve_spec.last }
    requires size { unsigned_abs peak.now.value < 10 ^ 37 }
    requires count_bound { length peak.now.cells < 2 ^ 32 }
    requires count { (C.state curve.old).count + length peak.now.cells ≤ 2 ^ 62 }
    ensures verdict { result ≡ peak_verdict (C.state curve.old).curve_model.curve_spec begin (unsigned_abs (end -ℤ begin)) peak.now }
    ensures highest { result ≡ PeakVerdict.Accepted →
        IsHighest (C.state curve.old).curve_model.curve_spec begin end peak.now.at peak.now.value }
    ensures count { (C.state curve.new).count ≤ (C.state curve.old).count + length peak.now.cells + 1 }
    ensures unchanged { (C.state curve.new).curve_model ≡ (C.state curve.old).curve_model }
{
    let wanted = end - begin;
    let covered = covered_by(peak.cells.as_slice());
    if covered != wanted {
        return PeakVerdict::WrongLength { covered, wanted };
    }
    if !is_inside(peak.at, begin, end) {
        return PeakVerdict::Outside;
    }
    let highest = Point {
        minute: peak.at,
        value: peak.value,
    };
    first_finding(curve, highest, peak.cells.as_slice(), begin)
}

/// Returns true if `at` is a minute from `begin` up to but not including `end`.
fn is_inside(at: i64, begin: i64, end: i64) -> bool
    requires { begin ≤ℤ end }
    ensures { result ≡ is_inside at begin (unsigned_abs (end -ℤ begin)) }
{
    begin <= at && at < end
}

/// Returns the verdict on the first cell that is wrong, or [`PeakVerdict::Accepted`] if none is.
/// The first cell begins at minute `begin`, and each other cell where the one before it ends;
/// `highest` is the claimed highest water.
fn first_finding<C: Curve>(
    curve: &mut C,
    highest: Point,
    cells: &[PeakCell],
    begin: i64,
) -> PeakVerdict
    requires size { unsigned_abs highest.value < 10 ^ 37 }
    requires span { IsSpan (C.state curve.old).curve_model.curve_spec begin (all_minutes cells.now) }
    requires count_bound { length cells.now < 2 ^ 32 }
    requires count { (C.state curve.old).count + length cells.now ≤ 2 ^ 62 }
    ensures verdict { result ≡ cells_verdict (C.state curve.old).curve_model.curve_spec highest.minute highest.value begin 1 cells.now }
    ensures count { (C.state curve.new).count ≤ (C.state curve.old).count + length cells.now + 1 }
    ensures unchanged { (C.state curve.new).curve_model ≡ (C.state curve.old).curve_model }
{
    let mut at = point_at(curve, begin);
    let mut number: u32 = 0;
    for cell in cells {
        let end = end_of(curve, at.minute, *cell);
        number += 1;
        match finding_on(curve, highest, number, *cell, at, end.value) {
            PeakVerdict::Accepted => at = end,
            wrong => return wrong,
        }
    }
    PeakVerdict::Accepted
}

/// Returns the point (the minute and the curve's value) at which `cell` ends if it begins at minute
/// `begin`. The curve is evaluated once.
fn end_of<C: Curve>(curve: &mut C, begin: i64, cell: PeakCell) -> Point
    requires span { IsSpan (C.state curve.old).curve_model.curve_spec begin (minutes_of cell) }
    requires count_bound { (C.state curve.old).count < 2 ^ 63 }
    ensures minute { result.minute ≡ begin +ℤ pos (minutes_of cell) }
    ensures value { result.value ≡ (C.state curve.old).curve_model.curve_spec.track.value result.minute }
    ensures after { C.state curve.new ≡ evaluated_once (C.state curve.old) }
{
    point_at(curve, begin + i64::from(minutes_of(cell)))
}
