//! The verdicts on cells.

use crate::asserts::assert_holds;
use crate::evaluating::{can_begin, is_few};
use cert_checker::check_track;
use curve_law::samples::{Line, Ripple};
use curve_law::{Cell, Cells, Curve, Kind, Verdict};
use std::alloc::Global;
use std::process::Abort;

/// Returns the verdict on `cells` from minute `begin` up to `end`, not included, or `None` if they may
/// not be checked.
fn verdict<C: Curve>(curve: &mut C, begin: i64, end: i64, cells: &Cells) -> Option<Verdict> {
    if can_begin(curve, begin, end) && cells.as_slice().len() <= 1000 {
        Some(check_track(curve, cells, begin, end))
    } else {
        None
    }
}

/// Returns true if the verdict on `cells` is `wanted`, after at most one evaluation a cell and one more.
fn finds<C: Curve + Drop>(
    alloc: Global,
    curve: C,
    begin: i64,
    end: i64,
    cells: &[Cell],
    wanted: Verdict,
) -> bool {
    let mut curve = curve;
    let Ok(copied) = Vec::from_slice(alloc, cells) else {
        return false;
    };
    let found = verdict(&mut curve, begin, end, &Cells::from_vec(copied));
    found == Some(wanted) && is_few(curve.evaluations(), cells.len())
}

/// Returns a line that rises past 0 after minute 2, where its level is 2.
fn rising() -> Line {
    Line::new(-2, false, 1)
}

const TURN: Cell = Cell::Turn(Kind::Low, 2);

const LOW: Cell = Cell::Turn(Kind::Low, 3);

const HIGH: Cell = Cell::Turn(Kind::High, 3);

const STILL: Cell = Cell::Still;

const QUIET: Cell = Cell::Quiet(2);

const LONGEST: Cell = Cell::Quiet(u32::MAX);

const ACCEPTED: Verdict = Verdict::Accepted;

/// The end of the minutes from 0 on, cells of the rising line, and the verdict on them.
type Case = (i64, &'static [Cell], Verdict);

const RIGHT: &[Case] = &[
    (8, &[QUIET, TURN, STILL, Cell::Quiet(4)], ACCEPTED),
    (
        8,
        &[STILL, STILL, TURN, STILL, STILL, STILL, STILL, STILL],
        ACCEPTED,
    ),
    (8, &[QUIET, TURN, STILL, STILL, Cell::Quiet(3)], ACCEPTED),
    (2, &[QUIET], ACCEPTED),
    (0, &[], ACCEPTED),
];

/// Lengths are tested first.
const WRONG_LENGTHS: &[Case] = &[
    (
        8,
        &[QUIET, TURN, STILL, Cell::Quiet(3)],
        Verdict::WrongLength {
            covered: 7,
            wanted: 8,
        },
    ),
    (
        8,
        &[LONGEST, LONGEST],
        Verdict::WrongLength {
            covered: 8_589_934_590,
            wanted: 8,
        },
    ),
    (
        8,
        &[],
        Verdict::WrongLength {
            covered: 0,
            wanted: 8,
        },
    ),
    (
        0,
        &[STILL],
        Verdict::WrongLength {
            covered: 1,
            wanted: 0,
        },
    ),
];

const NOT_QUIET: &[Case] = &[
    (8, &[Cell::Quiet(8)], Verdict::NotQuiet { cell: 1 }),
    (1025, &[Cell::Quiet(1025)], Verdict::NotQuiet { cell: 1 }),
    (2, &[STILL, Cell::Quiet(1)], Verdict::NotQuiet { cell: 2 }),
    (1, &[STILL, Cell::Quiet(0)], Verdict::NotQuiet { cell: 2 }),
];

const WRONG_MINUTES: &[Case] = &[
    (3, &[QUIET, STILL], Verdict::WrongStep { cell: 2 }),
    (
        1,
        &[Cell::Turn(Kind::Low, 0)],
        Verdict::WrongStep { cell: 1 },
    ),
    (3, &[QUIET, HIGH], Verdict::WrongStep { cell: 2 }),
    (
        3,
        &[QUIET, LOW],
        Verdict::WrongLevel {
            cell: 2,
            written: 3,
            computed: 2,
        },
    ),
    (
        4,
        &[STILL, STILL, HIGH, TURN],
        Verdict::WrongStep { cell: 3 },
    ),
    (
        4,
        &[STILL, STILL, LOW, TURN],
        Verdict::WrongLevel {
            cell: 3,
            written: 3,
            computed: 2,
        },
    ),
];

const RIPPLES: &[Cell] = &[
    Cell::Turn(Kind::MarkRising, 0),
    Cell::Turn(Kind::MarkFalling, 0),
];

fn check_cases(rt: &impl Abort, alloc: Global, cases: &[Case]) {
    for (place, &(end, cells, wanted)) in cases.iter().enumerate() {
        assert_holds(rt, finds(alloc, rising(), 0, end, cells, wanted), place);
    }
}

#[test]
fn right_cells_are_accepted(rt: HostRuntime) {
    let alloc = rt.alloc();
    check_cases(&rt, alloc, RIGHT);
    assert!(rt; finds(alloc, Ripple::new(), -1, 1, RIPPLES, ACCEPTED));
}

#[test]
fn the_first_fault_is_named(rt: HostRuntime) {
    let alloc = rt.alloc();
    check_cases(&rt, alloc, WRONG_LENGTHS);
    check_cases(&rt, alloc, NOT_QUIET);
    check_cases(&rt, alloc, WRONG_MINUTES);
    let without_rate = Verdict::NotQuiet { cell: 1 };
    assert!(rt; finds(alloc, Ripple::new(), 0, 2, &[QUIET], without_rate));
}
