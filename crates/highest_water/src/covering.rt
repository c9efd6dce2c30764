//! The cells that show a highest water.

ghost use Rattle.std.specs.Prelude.{◌≡◌, ◌+◌, ◌^◌, ◌<◌, ◌≤◌, ◌-ℤ◌, ◌≤ℤ◌, unsigned_abs, length, IfOk};
ghost use Rattle.highest_water.specs.Peaks.{IsHighest};
ghost use Rattle.highest_water.specs.Covers.{peak_cover};

use crate::peak_cells::PeakCells;
use crate::walk::{next_cell, walk_from};
use curve_law::{Curve, Point};
use std::alloc::{AllocError, Global};

/// Returns the cells that show that `value`, at minute `at`, is the highest water of the minutes
/// from `begin` up to but not including `end`: by the bound on the curve's change in a minute, or
/// by a look at a single minute, no minute is higher. The caller ensures that it is the highest
/// water, that `begin` and `end` are minutes of `curve`, and that the curve was evaluated at most
/// 2^62 times before. The call evaluates it at most once per cell, plus once, and nothing else
/// about it changes.
///
/// The program doesn't call it: the search for the highest water makes these cells.
///
/// # Errors
/// - [`AllocError`]: when memory runs out.
pub fn peak_cover<C: Curve>(
    alloc: Global,
    curve: &mut C,
    begin: i64,
    end: i64,
    at: i64,
    value: i128,
) -> Result<PeakCells, AllocError>
    requires highest { IsHighest (C.state curve.old).curve_model.curve_spec begin end at value }
    requires first { (C.state curve.old).curve_model.curve_spec.first ≤ℤ begin }
    requires last { end ≤ℤ (C.state curve.old).curve_model.curve_spec.last }
    requires count_bound { (C.state curve.old).count ≤ 2 ^ 62 }
    ensures cells { IfOk result
        (λ cells. cells ≡ peak_cover (C.state curve.old).curve_model.curve_spec at value begin (unsigned_abs (end -ℤ begin))) }
    ensures count { (C.state curve.new).count
        ≤ (C.state curve.old).count
        + length (peak_cover (C.state curve.old).curve_model.curve_spec at value begin (unsigned_abs (end -ℤ begin))) + 1 }
    ensures unchanged { (C.state curve.new).curve_model ≡ (C.state curve.old).curve_model }
{
    cells_by(alloc, curve, begin, end, Point { minute: at, value })
}

/// Cuts the minutes from `begin` up to but not including `end`, both minutes of `curve`, into
/// blocks of 1,024 and halves them until each part is a single minute or by the curve's rate has no
/// minute higher than the point `highest`, and returns these parts as cells. `highest` need not be
/// the highest water; its value is below 10^37 in size. The curve was evaluated at most 2^62 + 2^60
/// times before; the call evaluates it at most once per cell, plus once, and nothing else about it
/// changes.
///
/// # Errors
/// - [`AllocError`]: when memory runs out.
pub fn cells_by<C: Curve>(
    alloc: Global,
    curve: &mut C,
    begin: i64,
    end: i64,
    highest: Point,
) -> Result<PeakCells, AllocError>
    requires size { unsigned_abs highest.value < 10 ^ 37 }
    requires forward { begin ≤ℤ end }
    requires first { (C.state curve.old).curve_model.curve_spec.first ≤ℤ begin }
    requires last { end ≤ℤ (C.state curve.old).curve_model.curve_spec.last }
    requires count_bound { (C.state curve.old).count ≤ 2 ^ 62 + 2 ^ 60 }
    ensures cells { IfOk result (λ cells. cells
        ≡ peak_cover (C.state curve.old).curve_model.curve_spec highest.minute highest.value begin (unsigned_abs (end -ℤ begin))) }
    ensures count { (C.state curve.new).count
        ≤ (C.state curve.old).count
        + length (peak_cover (C.state curve.old).curve_model.curve_spec highest.minute highest.value begin (unsigned_abs (end -ℤ begin))) + 1 }
    ensures unchanged { (C.state curve.new).curve_model ≡ (C.state curve.old).curve_model }
{
    let mut front = walk_from(curve, highest, begin, end);
    let mut cells = Vec::new(alloc);
    while let Some(found) = next_cell(curve, &mut front, highest) {
        cells.push(found.cell)?;
    }
    Ok(PeakCells::from_vec(cells))
}
