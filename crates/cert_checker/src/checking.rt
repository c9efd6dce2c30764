//! The check of a track's cells, however they were made.

ghost use Rattle.std.specs.Prelude.{◌≡◌, ◌+◌, ◌<◌, ◌≤◌, ◌^◌, pos, ◌+ℤ◌, ◌-ℤ◌, ◌≤ℤ◌, unsigned_abs, length};
ghost use Rattle.curve_law.specs.declared.verdict.Verdict.{Verdict};
ghost use Rattle.curve_law.specs.Track.{plain_list};
ghost use Rattle.curve_law.specs.CurveSpec.{IsSpan};
ghost use Rattle.curve_law.specs.CurveStates.{evaluated_once};
ghost use Rattle.curve_law.specs.Cells.{minutes_of, all_minutes, cell_events};
ghost use Rattle.curve_law.specs.Verdicts.{cells_verdict, verdict};

use crate::covering::{covered_by, minutes_of};
use crate::finding::finding_on;
use curve_law::{Cell, Cells, Curve, Point, Verdict, approximate_point_at};

/// Checks that `cells` are true of the minutes from `begin` up to but not including `end`: first
/// that they have as many minutes, then each cell in turn. If they are accepted, the events in the
/// cells are exactly the events of the span.
///
/// The caller ensures that `begin` and `end` are both minutes of `curve` and `begin` isn't after
/// `end`, that there are fewer than 2^32 cells, and that the cells and the earlier evaluations of
/// the curve together number at most 2^62. The call evaluates the curve at most once per cell, plus
/// once, and nothing else about it changes.
///
/// # Examples
/// ```
/// let mut items = Vec::new(rt.alloc());
/// items.push(Cell::Quiet(8))?;
/// let cells = Cells::from_vec(items);
/// let mut line = Line::new(10, false, 1);
/// assert_eq!(rt; check_track(&mut line, &cells, 0, 8), Verdict::Accepted);
/// let mut line = Line::new(-2, false, 1);
/// let verdict = check_track(&mut line, &cells, 0, 8);
/// assert_eq!(rt; verdict, Verdict::NotQuiet { cell: 1 });
/// ```
pub fn check_track<C: Curve>(curve: &mut C, cells: &Cells, begin: i64, end: i64) -> Verdict
    requires forward { begin ≤ℤ end }
    requires first { (C.state curve.old).curve_model.curve_spec.first ≤ℤ begin }
    requires last { end ≤ℤ (C.state curve.old).curve_model.curve_spec.last }
    requires count_bound { length cells.now < 2 ^ 32 }
    requires count { (C.state curve.old).count + length cells.now ≤ 2 ^ 62 }
    ensures verdict { result ≡ verdict (C.state curve.old).curve_model.curve_spec begin (unsigned_abs (end -ℤ begin)) cells.now }
    ensures exact { result ≡ Verdict.Accepted →
        cell_events begin cells.now ≡ plain_list (C.state curve.old).curve_model.curve_spec.track begin (unsigned_abs (end -ℤ begin)) }
    ensures count { (C.state curve.new).count ≤ (C.state curve.old).count + length cells.now + 1 }
    ensures unchanged { (C.state curve.new).curve_model ≡ (C.state curve.old).curve_model }
{
    let wanted = end - begin;
    let covered = covered_by(cells.as_slice());
    if covered != wanted {
        return Verdict::WrongLength { covered, wanted };
    }
    first_finding(curve, cells.as_slice(), begin)
}

/// Returns the first fault of `cells`, or [`Verdict::Accepted`] if there is none. The first cell
/// begins at minute `begin`, and each other cell where the one before it ends.
fn first_finding<C: Curve>(curve: &mut C, cells: &[Cell], begin: i64) -> Verdict
    requires span { IsSpan (C.state curve.old).curve_model.curve_spec begin (all_minutes cells.now) }
    requires count_bound { length cells.now < 2 ^ 32 }
    requires count { (C.state curve.old).count + length cells.now ≤ 2 ^ 62 }
    ensures verdict { result ≡ cells_verdict (C.state curve.old).curve_model.curve_spec begin 1 cells.now }
    ensures count { (C.state curve.new).count ≤ (C.state curve.old).count + length cells.now + 1 }
    ensures unchanged { (C.state curve.new).curve_model ≡ (C.state curve.old).curve_model }
{
    let mut at = approximate_point_at(curve, begin);
    let mut number: u32 = 0;
    for cell in cells {
        let end = end_of(curve, at.minute, *cell);
        number += 1;
        match finding_on(curve, number, *cell, at, end.value) {
            Verdict::Accepted => at = end,
            wrong => return wrong,
        }
    }
    Verdict::Accepted
}

/// Evaluates `curve` approximately at the end of `cell`, which begins at minute `begin`, and
/// returns this minute with the approximate value.
fn end_of<C: Curve>(curve: &mut C, begin: i64, cell: Cell) -> Point
    requires span { IsSpan (C.state curve.old).curve_model.curve_spec begin (minutes_of cell) }
    requires count_bound { (C.state curve.old).count < 2 ^ 63 }
    ensures minute { result.minute ≡ begin +ℤ pos (minutes_of cell) }
    ensures value { result.value ≡ (C.state curve.old).curve_model.approximate result.minute }
    ensures after { C.state curve.new ≡ evaluated_once (C.state curve.old) }
{
    approximate_point_at(curve, begin + i64::from(minutes_of(cell)))
}
