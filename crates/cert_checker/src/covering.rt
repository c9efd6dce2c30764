//! The numbers of minutes of cells.

ghost use Rattle.std.specs.Prelude.{◌≡◌, ◌-◌, ◌^◌, pos, min};
ghost use Rattle.curve_law.specs.Cells.{minutes_of, all_minutes};

use curve_law::Cell;

/// Returns the number of minutes of `cell`.
pub fn minutes_of(cell: Cell) -> u32
    ensures { result ≡ minutes_of cell }
{
    match cell {
        Cell::Quiet(minutes) => minutes,
        Cell::Still | Cell::Turn(..) => 1,
    }
}

/// Returns the number of minutes of all `cells` together, or the greatest `i64` if the number exceeds
/// it.
#[tactic(auto, using(crate::proofs::CoveringLemmas::covering))]
pub fn covered_by(cells: &[Cell]) -> i64
    ensures { result ≡ pos (min (all_minutes cells.now) (2 ^ 63 - 1)) }
{
    let mut covered: i64 = 0;
    for cell in cells {
        covered = covered.saturating_add(i64::from(minutes_of(*cell)));
    }
    covered
}
