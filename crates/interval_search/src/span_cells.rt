//! All cells of a span at once.

ghost use Rattle.std.specs.Prelude.{◌≡◌, ◌+◌, ◌^◌, ◌≤◌, ◌-ℤ◌, ◌≤ℤ◌, length, unsigned_abs, IfOk};
ghost use Rattle.curve_law.specs.Cover.{cover};

use crate::front::front_at;
use crate::quiet_pieces::{QuietPieces, next_found};
use curve_law::{Cells, Curve};
use std::alloc::{AllocError, Global};

/// Returns the cells (quiet minutes without an event, or one minute with or without one) of the
/// minutes from `begin` up to but not including `end`. The caller ensures that both are minutes of
/// `curve`, that `begin` isn't after `end`, and that the curve was evaluated at most 2^62 times
/// before. The call evaluates it at most once per cell, plus once, and nothing else about it
/// changes.
///
/// # Errors
/// - [`AllocError`]: when memory runs out.
///
/// # Examples
/// ```
/// let mut curve = Line::new(-2, false, 1);
/// let cells = search(rt.alloc(), &mut curve, 0, 8)?;
/// assert_eq!(rt; cells.as_slice().len(), 4);
/// assert_eq!(rt; cells.as_slice()[1], Cell::Turn(Kind::Low, 2));
/// ```
pub fn search<C: Curve>(
    alloc: Global,
    curve: &mut C,
    begin: i64,
    end: i64,
) -> Result<Cells, AllocError>
    requires forward { begin ≤ℤ end }
    requires first { (C.state curve.old).curve_model.curve_spec.first ≤ℤ begin }
    requires last { end ≤ℤ (C.state curve.old).curve_model.curve_spec.last }
    requires count_bound { (C.state curve.old).count ≤ 2 ^ 62 }
    ensures cells { IfOk result (λ cells. cells ≡ cover (C.state curve.old).curve_model.curve_spec begin (unsigned_abs (end -ℤ begin))) }
    ensures count { (C.state curve.new).count
        ≤ (C.state curve.old).count + length (cover (C.state curve.old).curve_model.curve_spec begin (unsigned_abs (end -ℤ begin))) + 1 }
    ensures unchanged { (C.state curve.new).curve_model ≡ (C.state curve.old).curve_model }
{
    let mut front = front_at(curve, &QuietPieces, begin, end);
    let mut cells = Vec::new(alloc);
    while let Some(found) = next_found(curve, &mut front) {
        cells.push(found.cell)?;
    }
    Ok(Cells::from_vec(cells))
}
