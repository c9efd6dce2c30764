//! The cells of spans, found at once and in steps.

use crate::asserts::assert_holds;
use crate::evaluating::{can_begin, is_few};
use curve_law::samples::{Line, Ripple};
use curve_law::{Cell, Cells, Curve, Kind};
use interval_search::{Found, Search, search};
use std::alloc::Global;

/// Returns the cells that a search finds, or `None` if there are none.
fn found<C: Curve>(alloc: Global, curve: &mut C, begin: i64, end: i64) -> Option<Cells> {
    if can_begin(curve, begin, end) {
        search(alloc, curve, begin, end).ok()
    } else {
        None
    }
}

/// Returns true if the search returns the cells `wanted`, and evaluates at most once per cell, plus
/// once.
fn has_cells<C: Curve + Drop>(
    alloc: Global,
    curve: C,
    begin: i64,
    end: i64,
    wanted: &[Cell],
) -> bool {
    let mut curve = curve;
    match found(alloc, &mut curve, begin, end) {
        Some(cells) => cells.as_slice() == wanted && is_few(curve.evaluations(), wanted.len()),
        None => false,
    }
}

/// Returns true if a search in steps returns `wanted`, and nothing after that.
fn has_steps<C: Curve + Drop>(curve: C, begin: i64, end: i64, wanted: &[Found]) -> bool {
    can_begin(&curve, begin, end) && gives(&mut Search::new(curve, begin, end), wanted)
}

fn gives<C: Curve>(search: &mut Search<C>, wanted: &[Found]) -> bool {
    for found in wanted {
        if search.next() != Some(*found) {
            return false;
        }
    }
    let is_few = is_few(search.evaluations(), wanted.len());
    search.next().is_none() && search.next().is_none() && is_few
}

const ABOVE: &[Cell] = &[Cell::Still, Cell::Still, Cell::Quiet(2), Cell::Quiet(4)];

const RISING: &[Cell] = &[
    Cell::Quiet(2),
    Cell::Turn(Kind::Low, 2),
    Cell::Still,
    Cell::Quiet(4),
];

const ODD: &[Cell] = &[Cell::Still, Cell::Quiet(2)];

const BLOCKS: &[Cell] = &[Cell::Quiet(1024), Cell::Quiet(1024), Cell::Still];

const TURNS: &[Cell] = &[
    Cell::Turn(Kind::MarkFalling, 0),
    Cell::Turn(Kind::MarkRising, 0),
];

fn rising() -> Line {
    Line::new(-2, false, 1)
}

#[test]
fn spans_have_their_cells(rt: HostRuntime) {
    let alloc = rt.alloc();
    let above = Line::new(1, false, 3);
    assert_holds(&rt, has_cells(alloc, above, 0, 8, ABOVE), "above");
    assert_holds(&rt, has_cells(alloc, rising(), 0, 8, RISING), "rising");
    let odd = Line::new(2, false, 3);
    assert_holds(&rt, has_cells(alloc, odd, 0, 3, ODD), "odd");
    let long = Line::new(10_000, true, 1);
    assert_holds(&rt, has_cells(alloc, long, -7, 2042, BLOCKS), "blocks");
    assert_holds(&rt, has_cells(alloc, Ripple::new(), 4, 6, TURNS), "turns");
    assert_holds(&rt, has_cells(alloc, Ripple::new(), 5, 5, &[]), "none");
}

const RISING_STEPS: &[Found] = &[
    Found {
        at: 0,
        cell: Cell::Quiet(2),
    },
    Found {
        at: 2,
        cell: Cell::Turn(Kind::Low, 2),
    },
    Found {
        at: 3,
        cell: Cell::Still,
    },
    Found {
        at: 4,
        cell: Cell::Quiet(4),
    },
];

const TURN_STEPS: &[Found] = &[
    Found {
        at: -1,
        cell: Cell::Turn(Kind::MarkRising, 0),
    },
    Found {
        at: 0,
        cell: Cell::Turn(Kind::MarkFalling, 0),
    },
];

#[test]
fn steps_give_the_same_cells(rt: HostRuntime) {
    assert_holds(&rt, has_steps(rising(), 0, 8, RISING_STEPS), "rising");
    assert_holds(&rt, has_steps(Ripple::new(), -1, 1, TURN_STEPS), "turns");
    assert_holds(&rt, has_steps(Ripple::new(), 5, 5, &[]), "none");
}
