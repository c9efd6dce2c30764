//! The search for the highest water of a span.

ghost use Rattle.std.specs.Prelude.{◌≡◌, ◌+◌, ◌*◌, ◌^◌, ◌≤◌, pos, ◌-ℤ◌, ◌≤ℤ◌, ◌<ℤ◌, unsigned_abs, length, IfOk};
ghost use Rattle.interval_search.specs.Workings.Ahead.{minutes_to};
ghost use Rattle.highest_water.specs.Peaks.{IsHighest};
ghost use Rattle.highest_water.specs.Covers.{peak_of};
ghost use Rattle.highest_water.specs.Workings.Below.{IsPoint};

use crate::covering::cells_by;
use crate::higher::{higher_of, raised_by};
use crate::peak::Peak;
use crate::walk::{next_cell, walk_from};
use curve_law::{Curve, Point, point_at};
use interval_search::block_end;
use std::alloc::{AllocError, Global};

/// Returns the highest water of the minutes from `begin` up to but not including `end`: the first
/// minute with the greatest value, this value, and the cells by which a check can see that no
/// minute is higher. The caller ensures that both are minutes of `curve`, 1 to 5,270,400 minutes
/// apart, and that the curve was evaluated at most 2^62 times before. The call evaluates it at most
/// twice per minute and once per cell of the result, plus twice, and nothing else about it changes.
///
/// # Errors
/// - [`AllocError`]: when memory runs out.
pub fn find_peak<C: Curve>(
    alloc: Global,
    curve: &mut C,
    begin: i64,
    end: i64,
) -> Result<Peak, AllocError>
    requires some { begin <ℤ end }
    requires length_bound { (end -ℤ begin) ≤ℤ pos 5270400 }
    requires first { (C.state curve.old).curve_model.curve_spec.first ≤ℤ begin }
    requires last { end ≤ℤ (C.state curve.old).curve_model.curve_spec.last }
    requires count_bound { (C.state curve.old).count ≤ 2 ^ 62 }
    ensures highest { IfOk result (λ peak. IsHighest (C.state curve.old).curve_model.curve_spec begin end peak.at peak.value) }
    ensures peak { IfOk result (λ peak. peak ≡ peak_of (C.state curve.old).curve_model.curve_spec begin (unsigned_abs (end -ℤ begin))) }
    ensures count { (C.state curve.new).count ≤ (C.state curve.old).count + 2 * unsigned_abs (end -ℤ begin)
        + length (peak_of (C.state curve.old).curve_model.curve_spec begin (unsigned_abs (end -ℤ begin))).cells + 2 }
    ensures unchanged { (C.state curve.new).curve_model ≡ (C.state curve.old).curve_model }
{
    let highest = highest_point(curve, begin, end);
    let cells = cells_by(alloc, curve, begin, end, highest)?;
    Ok(Peak {
        at: highest.minute,
        value: highest.value,
        cells,
    })
}

/// Returns the highest water of the minutes from `begin` up to but not including `end`: the first
/// minute with the greatest value, and this value. The caller ensures that both are minutes of
/// `curve`, 1 to 5,270,400 minutes apart, and that the curve was evaluated at most 2^62 times
/// before. The call evaluates it at most twice per minute, plus once, and nothing else about it
/// changes. It makes no cells and doesn't allocate.
pub fn highest_point<C: Curve>(curve: &mut C, begin: i64, end: i64) -> Point
    requires some { begin <ℤ end }
    requires length_bound { (end -ℤ begin) ≤ℤ pos 5270400 }
    requires first { (C.state curve.old).curve_model.curve_spec.first ≤ℤ begin }
    requires last { end ≤ℤ (C.state curve.old).curve_model.curve_spec.last }
    requires count_bound { (C.state curve.old).count ≤ 2 ^ 62 }
    ensures highest { IsHighest (C.state curve.old).curve_model.curve_spec begin end result.minute result.value }
    ensures minute { result.minute ≡ (peak_of (C.state curve.old).curve_model.curve_spec begin (unsigned_abs (end -ℤ begin))).at }
    ensures value { result.value ≡ (peak_of (C.state curve.old).curve_model.curve_spec begin (unsigned_abs (end -ℤ begin))).value }
    ensures count { (C.state curve.new).count ≤ (C.state curve.old).count + 2 * unsigned_abs (end -ℤ begin) + 1 }
    ensures unchanged { (C.state curve.new).curve_model ≡ (C.state curve.old).curve_model }
{
    // Cells that by the curve's rate are under the highest point found until now are skipped, so
    // the curve is evaluated at few minutes.
    let mut highest = highest_block(curve, begin, end);
    let mut front = walk_from(curve, highest, begin, end);
    while let Some(found) = next_cell(curve, &mut front, highest) {
        highest = raised_by(highest, found);
    }
    highest
}

/// Returns the highest of the points at which the blocks of the span begin: the minutes from
/// `begin` up to but not including `end`, cut into blocks of 1,024 minutes. A search that starts
/// with this point can skip most parts of the span, which are under it.
fn highest_block<C: Curve>(curve: &mut C, begin: i64, end: i64) -> Point
    requires some { begin <ℤ end }
    requires first { (C.state curve.old).curve_model.curve_spec.first ≤ℤ begin }
    requires last { end ≤ℤ (C.state curve.old).curve_model.curve_spec.last }
    requires count_bound { (C.state curve.old).count ≤ 2 ^ 62 }
    ensures point { IsPoint (C.state curve.old).curve_model.curve_spec begin end result }
    ensures count { (C.state curve.new).count ≤ (C.state curve.old).count + minutes_to begin end }
    ensures unchanged { (C.state curve.new).curve_model ≡ (C.state curve.old).curve_model }
{
    let mut highest = point_at(curve, begin);
    let mut at = block_end(begin, end);
    while at < end {
        highest = higher_of(highest, point_at(curve, at));
        at = block_end(at, end);
    }
    highest
}
