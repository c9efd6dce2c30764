//! The verdict on one cell.

ghost use Rattle.std.specs.Prelude.{◌≡◌, pos, ◌+ℤ◌};
ghost use Rattle.curve_law.specs.CurveSpec.{IsSpan};
ghost use Rattle.curve_law.specs.Cells.{minutes_of};
ghost use Rattle.curve_law.specs.Cover.{is_quiet};
ghost use Rattle.curve_law.specs.Verdicts.{cell_verdict};
ghost use Rattle.cert_checker.specs.Workings.Findings.{quiet_finding, level_finding, unit_finding};

use curve_law::{
    Cell, Curve, MOST_MINUTES, Point, Verdict, is_quiet_from_approximate,
    unit_cell_from_approximate,
};

/// Returns the verdict on `cell`, the cell with the number `number`, counted from 1: whether its
/// claim about its minutes is true of the curve. `at` is its first minute with the curve's
/// approximate value at it, and `end_value` is the approximate value at the minute after its last;
/// the exact values are used only if these don't decide.
#[tactic(auto, using(crate::proofs::FindingLemmas::findings))]
pub fn finding_on<C: Curve>(
    curve: &C,
    number: u32,
    cell: Cell,
    at: Point,
    end_value: i128,
) -> Verdict
    requires span { IsSpan (C.state curve.now).curve_model.curve_spec at.minute (minutes_of cell) }
    requires value { at.value ≡ (C.state curve.now).curve_model.approximate at.minute }
    requires end_value { end_value ≡ (C.state curve.now).curve_model.approximate (at.minute +ℤ pos (minutes_of cell)) }
    ensures { result ≡ cell_verdict (C.state curve.now).curve_model.curve_spec at.minute number cell }
{
    match cell {
        Cell::Quiet(minutes) => quiet_finding(number, is_quiet_cell(curve, minutes, at, end_value)),
        Cell::Still | Cell::Turn(..) => unit_finding(
            number,
            cell,
            unit_cell_from_approximate(curve, at.minute, at.value, end_value),
        ),
    }
}

/// Returns true if the `minutes` minutes from the point `at` on can be one quiet cell (2 to 1,024
/// minutes in which, by a bound on the curve's change in a minute, its value can't cross 0). `at`
/// has the curve's approximate value at its minute, and `end_value` is the approximate value at the
/// end.
fn is_quiet_cell<C: Curve>(curve: &C, minutes: u32, at: Point, end_value: i128) -> bool
    requires span { IsSpan (C.state curve.now).curve_model.curve_spec at.minute minutes }
    requires value { at.value ≡ (C.state curve.now).curve_model.approximate at.minute }
    requires end_value { end_value ≡ (C.state curve.now).curve_model.approximate (at.minute +ℤ pos minutes) }
    ensures { result ≡ is_quiet (C.state curve.now).curve_model.curve_spec at.minute minutes }
{
    if minutes > MOST_MINUTES {
        return false;
    }
    is_quiet_from_approximate(curve, at.minute, minutes, at.value, end_value)
}

/// Returns the verdict on the cell `number`, which claims to be quiet; `is_quiet` says whether it
/// is.
fn quiet_finding(number: u32, is_quiet: bool) -> Verdict
    ensures { result ≡ quiet_finding number is_quiet }
{
    if is_quiet {
        Verdict::Accepted
    } else {
        Verdict::NotQuiet { cell: number }
    }
}

/// Returns the verdict on `cell`, a cell of one minute with the number `number`, counted from 1.
/// `right` is the correct cell of this minute.
fn unit_finding(number: u32, cell: Cell, right: Cell) -> Verdict
    ensures { result ≡ unit_finding number cell right }
{
    match (cell, right) {
        (Cell::Still, Cell::Still) => Verdict::Accepted,
        (Cell::Turn(kind, written), Cell::Turn(right_kind, computed)) if kind == right_kind => {
            level_finding(number, written, computed)
        }
        _ => Verdict::WrongStep { cell: number },
    }
}

/// Returns the verdict on an event's level in the cell `number`: `written` is the claimed level,
/// and `computed` the track's, both in millionths of the station's unit.
fn level_finding(number: u32, written: i64, computed: i64) -> Verdict
    ensures { result ≡ level_finding number written computed }
{
    if written == computed {
        Verdict::Accepted
    } else {
        Verdict::WrongLevel {
            cell: number,
            written,
            computed,
        }
    }
}
