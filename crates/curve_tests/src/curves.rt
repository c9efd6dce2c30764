//! The laws of cells and curves, and small curves.

use crate::asserts::assert_holds;
use crate::evaluating::{has_kinds, value_at};
use curve_law::samples::{Line, Ripple};
use curve_law::*;
use std::alloc::Global;

#[test]
fn laws_and_rows_stand(_rt: HostRuntime) {
    plain_list_of_one_minute();
    plain_list_of_two_spans();
    plain_list_of_quiet_minutes();
    events_pass_zero();
    cells_are_halved();
    spans_are_cut_into_blocks();
    quiet_cells_have_no_event();
    accepted_cells_are_exact();
    covers_are_accepted();
    answers_are_those_of_more_minutes();
    sample_events();
    worked_quiet_cells();
    worked_covers();
    worked_verdicts();
}

#[test]
fn kinds_go_by_the_side(rt: HostRuntime) {
    assert!(rt; kind_after(true, Kind::Low, Kind::High) == Kind::High);
    assert!(rt; kind_after(false, Kind::Low, Kind::High) == Kind::Low);
}

/// Returns the sum of all values from `begin` to `end`, or `None` if the curve was evaluated too often
/// before.
fn sum<C: Curve>(curve: &mut C, begin: i64, end: i64) -> Option<i128> {
    let mut sum: i128 = 0;
    for m in begin..end {
        sum = sum.checked_add(value_at(curve, m)?)?;
    }
    Some(sum)
}

/// Returns true if the sum is the expected one.
fn has_sum<C: Curve>(curve: &mut C, begin: i64, end: i64, wanted: i128) -> bool {
    sum(curve, begin, end) == Some(wanted)
}

#[test]
fn lines_return_their_values(rt: HostRuntime) {
    let mut line = Line::new(3, true, 5);
    assert_holds(&rt, has_sum(&mut line, 0, 6, 3), "sum");
    assert_holds(&rt, line.evaluations() == 6, "evaluations");
    assert_holds(&rt, line.rate(0, 8) == Some(5), "rate");
    assert_holds(&rt, line.note(-7) == -7, "level");
    assert_holds(&rt, has_kinds(&line, Kind::Low, Kind::High), "kinds");
}

#[test]
fn ripples_return_their_values(rt: HostRuntime) {
    let mut ripple = Ripple::new();
    assert_holds(&rt, has_sum(&mut ripple, -3, 4, -1), "sum");
    assert_holds(&rt, ripple.evaluations() == 7, "evaluations");
    assert_holds(&rt, ripple.rate(0, 8).is_none(), "rate");
    let has_kinds = has_kinds(&ripple, Kind::MarkRising, Kind::MarkFalling);
    assert_holds(&rt, has_kinds, "kinds");
}

/// Returns whether the eight minutes from 0 on are quiet, and the cell of the first one, by approximate
/// values.
fn decided<C: Curve>(curve: &mut C) -> Option<(bool, Cell)> {
    if 0 < curve.first() || curve.last() < 8 || curve.evaluations() > 1000 {
        return None;
    }
    let approximate = curve.approximate_value(0);
    let approximate_next = curve.approximate_value(1);
    let approximate_end = curve.approximate_value(8);
    Some((
        is_quiet_from_approximate(curve, 0, 8, approximate, approximate_end),
        unit_cell_from_approximate(curve, 0, approximate, approximate_next),
    ))
}

/// Returns the value at minute 0 by way of an approximate one.
fn exact<C: Curve>(curve: &mut C) -> Option<i128> {
    if 0 < curve.first() || curve.last() < 0 || curve.evaluations() > 1000 {
        return None;
    }
    let approximate = curve.approximate_value(0);
    Some(curve.exact_value(0, approximate))
}

/// Lines: the value at minute 0, true if it falls, its rate, whether the eight minutes from 0 on are
/// quiet, and the cell of the first one.
const DECIDED: &[(i64, bool, i64, bool, Cell)] = &[
    (1, false, 1, true, Cell::Still),
    (-8, false, 1, true, Cell::Still),
    (0, false, 1, false, Cell::Turn(Kind::Low, 0)),
    (30, true, 6, true, Cell::Still),
    (28, true, 6, false, Cell::Still),
    (28, true, 7, false, Cell::Still),
    (100, true, 2, true, Cell::Still),
];

fn is_decided<C: Curve + Drop>(curve: C, is_quiet: bool, cell: Cell) -> bool {
    let mut curve = curve;
    match decided(&mut curve) {
        Some(found) => found.0 == is_quiet && found.1 == cell && curve.evaluations() == 3,
        None => false,
    }
}

/// Returns true if `is_quiet` says whether the eight minutes from 0 on of a line are quiet, and `cell`
/// is the cell of the first one.
fn is_line_decided(start: i64, falls: bool, rate: i64, is_quiet: bool, cell: Cell) -> bool {
    if start.unsigned_abs() > 1000 || !(1..=1000).contains(&rate) {
        return false;
    }
    is_decided(Line::new(start, falls, rate), is_quiet, cell)
}

#[test]
fn approximate_values_decide_cells(rt: HostRuntime) {
    for &(start, falls, rate, is_quiet, cell) in DECIDED {
        let is_right = is_line_decided(start, falls, rate, is_quiet, cell);
        assert_holds(&rt, is_right, start);
    }
    let turn = Cell::Turn(Kind::MarkFalling, 0);
    assert_holds(&rt, is_decided(Ripple::new(), false, turn), "a ripple");
    assert_holds(&rt, Line::new(1, false, 1).error() == 1, "the error");
}

#[test]
fn approximate_values_lead_to_exact_ones(rt: HostRuntime) {
    assert!(rt; exact(&mut Line::new(4, true, 1)) == Some(4));
    assert!(rt; exact(&mut Ripple::new()) == Some(1));
}

const CELLS: &[Cell] = &[Cell::Quiet(2), Cell::Turn(Kind::Low, -1)];

const EVENTS: &[Event] = &[Event {
    minute: 2,
    kind: Kind::Low,
    level: -1,
}];

fn are_cells_kept(alloc: Global) -> bool {
    match Vec::from_slice(alloc, CELLS) {
        Ok(cells) => Cells::from_vec(cells).as_slice() == CELLS,
        Err(_) => false,
    }
}

fn are_events_kept(alloc: Global) -> bool {
    match Vec::from_slice(alloc, EVENTS) {
        Ok(events) => Events::from_vec(events).as_slice() == EVENTS,
        Err(_) => false,
    }
}

#[test]
fn lists_keep_their_items(rt: HostRuntime) {
    assert!(rt; are_cells_kept(rt.alloc()));
    assert!(rt; are_events_kept(rt.alloc()));
}
