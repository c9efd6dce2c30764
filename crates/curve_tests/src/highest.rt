//! The highest water of a span: found, covered and checked.

ghost use Rattle.std.specs.Prelude.{◌+◌, ◌^◌, ◌<◌, ◌≤◌, ◌≤ℤ◌, ◌<ℤ◌, ◌-ℤ◌, pos, unsigned_abs, length, IfSome, IsTrue};
ghost use Rattle.highest_water.specs.Peaks.{IsHighest};

use crate::asserts::assert_holds;
use crate::evaluating::{is_few, value_at};
use crate::hills::{Hills, Top};
use curve_law::Curve;
use curve_law::samples::{Line, Ripple};
use highest_water::{
    Peak, PeakCell, PeakCells, PeakVerdict, accepted_highest_waters_are_right, blocks_are_halved,
    check_peak, covers_are_accepted, find_peak, highest_waters_are_those_of_more_minutes,
    peak_cover, spans_are_cut_into_blocks, spans_have_one_highest_water,
    under_cells_hold_nothing_higher, worked_cells_under, worked_covers, worked_minutes,
    worked_verdicts,
};
use std::alloc::Global;
use std::process::Abort;

/// Returns true if the span from `begin` up to `end`, not included, has a minute, and the curve has all
/// its minutes.
fn covers_span<C: Curve>(curve: &C, begin: i64, end: i64) -> bool
    ensures { IsTrue result → (begin <ℤ end) × ((C.state curve.now).curve_model.curve_spec.first ≤ℤ begin)
        × (end ≤ℤ (C.state curve.now).curve_model.curve_spec.last) }
{
    curve.first() <= begin && begin < end && end <= curve.last()
}

fn is_short(begin: i64, end: i64) -> bool
    ensures { IsTrue result → (end -ℤ begin) ≤ℤ pos 5270400 }
{
    begin >= -1_000_000 && end <= 1_000_000
}

fn is_asked_little<C: Curve>(curve: &C) -> bool
    ensures { IsTrue result → (C.state curve.now).count ≤ 10 ^ 6 }
{
    curve.evaluations() <= 1_000_000
}

/// Returns true if the highest water from `begin` up to `end`, not included, may be searched: the curve
/// has these minutes, which are 1 to 5,270,400 in number, and was evaluated at most 1,000,000 times.
fn can_find<C: Curve>(curve: &C, begin: i64, end: i64) -> bool
    ensures some { IsTrue result → begin <ℤ end }
    ensures first { IsTrue result → (C.state curve.now).curve_model.curve_spec.first ≤ℤ begin }
    ensures last { IsTrue result → end ≤ℤ (C.state curve.now).curve_model.curve_spec.last }
    ensures length_bound { IsTrue result → (end -ℤ begin) ≤ℤ pos 5270400 }
    ensures count { IsTrue result → (C.state curve.now).count ≤ 10 ^ 6 }
{
    covers_span(curve, begin, end) && is_short(begin, end) && is_asked_little(curve)
}

/// Returns the highest water that a search finds, or `None` if there is none.
fn found<C: Curve>(alloc: Global, curve: &mut C, begin: i64, end: i64) -> Option<Peak>
    ensures { IfSome result (λ peak. IsHighest (C.state curve.new).curve_model.curve_spec begin end peak.at peak.value) }
{
    if can_find(curve, begin, end) {
        find_peak(alloc, curve, begin, end).ok()
    } else {
        None
    }
}

/// Returns true if the written highest water may be checked: its value is less than 10^37 in size, and
/// it has at most 1,000,000 cells.
fn is_small(peak: &Peak) -> bool
    ensures { IsTrue result → (unsigned_abs peak.now.value < 10 ^ 37) × (length peak.now.cells ≤ 10 ^ 6) }
{
    peak.value.unsigned_abs() < 1_000_000 && peak.cells.as_slice().len() <= 1_000_000
}

/// Returns the highest water by an evaluation of every minute.
fn looked_at<C: Curve>(curve: &mut C, begin: i64, end: i64) -> Option<(i64, i128)> {
    let mut highest = None;
    for m in begin..end {
        let value = value_at(curve, m)?;
        highest = match highest {
            Some((at, most)) if most >= value => Some((at, most)),
            _ => Some((m, value)),
        };
    }
    highest
}

/// Returns the verdict on a highest water, or `None` if it may not be checked.
fn verdict_on<C: Curve>(curve: &mut C, peak: &Peak, begin: i64, end: i64) -> Option<PeakVerdict> {
    if can_find(curve, begin, end) && is_small(peak) {
        Some(check_peak(curve, peak, begin, end))
    } else {
        None
    }
}

/// Returns the verdict of a check, if it evaluates the curve at most once per cell, plus once.
fn checked<C: Curve>(curve: &mut C, peak: &Peak, begin: i64, end: i64) -> Option<PeakVerdict> {
    let before = curve.evaluations();
    let verdict = verdict_on(curve, peak, begin, end)?;
    let evaluated = curve.evaluations().saturating_sub(before);
    is_few(evaluated, peak.cells.as_slice().len()).then_some(verdict)
}

/// Returns true if the search finds the same as an evaluation of every minute, and the check accepts it.
fn finds<C: Curve + Drop>(alloc: Global, curve: C, looked: C, begin: i64, end: i64) -> bool {
    let mut curve = curve;
    let mut looked = looked;
    match found(alloc, &mut curve, begin, end) {
        Some(peak) => {
            looked_at(&mut looked, begin, end) == Some((peak.at, peak.value))
                && checked(&mut curve, &peak, begin, end) == Some(PeakVerdict::Accepted)
        }
        None => false,
    }
}

fn hills() -> Hills {
    Hills::new(Top { at: 100, value: 50 }, Top { at: 700, value: 90 }, 1)
}

/// Returns two equal maxima, with a greater rate than necessary.
fn equal_hills() -> Hills {
    Hills::new(Top { at: 100, value: 50 }, Top { at: 600, value: 50 }, 3)
}

#[test]
fn laws_and_rows_stand(_rt: HostRuntime) {
    spans_have_one_highest_water();
    blocks_are_halved();
    spans_are_cut_into_blocks();
    under_cells_hold_nothing_higher();
    accepted_highest_waters_are_right();
    covers_are_accepted();
    highest_waters_are_those_of_more_minutes();
    worked_minutes();
    worked_cells_under();
    worked_covers();
    worked_verdicts();
}

const SPANS: &[(i64, i64)] = &[
    (0, 1),
    (0, 1000),
    (0, 1024),
    (-5, 1020),
    (700, 701),
    (0, 700),
    (701, 3000),
    (-4000, 4000),
];

fn rising() -> Line {
    Line::new(1, false, 3)
}

fn falling() -> Line {
    Line::new(1, true, 1)
}

#[test]
fn every_minute_agrees(rt: HostRuntime) {
    for &(begin, end) in SPANS {
        check_span(&rt, rt.alloc(), begin, end);
    }
}

fn check_span(rt: &impl Abort, alloc: Global, begin: i64, end: i64) {
    assert_holds(rt, finds(alloc, hills(), hills(), begin, end), "hills");
    let are_found = finds(alloc, equal_hills(), equal_hills(), begin, end);
    assert_holds(rt, are_found, "equal hills");
    assert_holds(rt, finds(alloc, rising(), rising(), begin, end), "rising");
    assert_holds(
        rt,
        finds(alloc, falling(), falling(), begin, end),
        "falling",
    );
    let are_found = finds(alloc, Ripple::new(), Ripple::new(), begin, end);
    assert_holds(rt, are_found, "ripple");
}

/// Returns true if a search evaluates the curve less than 7,000 times.
fn asks_little<C: Curve + Drop>(alloc: Global, curve: C, begin: i64, end: i64) -> bool {
    let mut curve = curve;
    found(alloc, &mut curve, begin, end).is_some() && curve.evaluations() < 7000
}

/// A search over some 2,000,000 minutes, which are 1,952 blocks.
#[test]
fn few_values_are_asked_for(rt: HostRuntime) {
    let alloc = rt.alloc();
    assert!(rt; asks_little(alloc, equal_hills(), -999_000, 999_000));
    let rising = Line::new(0, false, 1);
    assert!(rt; asks_little(alloc, rising, -999_000, 999_000));
}

/// Returns true if the cells of a highest water are these, and making them evaluates the curve at most
/// once per cell, plus once.
fn covers<C: Curve + Drop>(
    alloc: Global,
    curve: C,
    begin: i64,
    end: i64,
    wanted: &[PeakCell],
) -> bool {
    let mut curve = curve;
    match found(alloc, &mut curve, begin, end) {
        Some(peak) => has_cover(alloc, &mut curve, begin, end, &peak, wanted),
        None => false,
    }
}

fn has_cover<C: Curve>(
    alloc: Global,
    curve: &mut C,
    begin: i64,
    end: i64,
    peak: &Peak,
    wanted: &[PeakCell],
) -> bool
    requires { IsHighest (C.state curve.old).curve_model.curve_spec begin end peak.now.at peak.now.value }
{
    if !can_find(curve, begin, end) {
        return false;
    }
    let before = curve.evaluations();
    match peak_cover(alloc, curve, begin, end, peak.at, peak.value) {
        Ok(cells) => {
            let evaluated = curve.evaluations().saturating_sub(before);
            peak.cells.as_slice() == wanted
                && cells.as_slice() == wanted
                && is_few(evaluated, wanted.len())
        }
        Err(_) => false,
    }
}

const SINGLE: PeakCell = PeakCell::Single;

const LAST: &[PeakCell] = &[PeakCell::Under(4), PeakCell::Under(2), SINGLE, SINGLE];

const LONGEST: &[PeakCell] = &[PeakCell::Under(1024), SINGLE, SINGLE];

const ODD: &[PeakCell] = &[SINGLE, SINGLE, PeakCell::Under(3)];

#[test]
fn covers_are_those_of_the_rule(rt: HostRuntime) {
    let alloc = rt.alloc();
    let rising = Line::new(0, false, 1);
    assert_holds(&rt, covers(alloc, rising, 0, 8, LAST), "last");
    let rising = Line::new(0, false, 1);
    assert_holds(&rt, covers(alloc, rising, 0, 1026, LONGEST), "longest");
    let falling = Line::new(0, true, 1);
    assert_holds(&rt, covers(alloc, falling, 0, 5, ODD), "odd");
    let ripple = covers(alloc, Ripple::new(), 4, 6, &[SINGLE, SINGLE]);
    assert_holds(&rt, ripple, "ripple");
}

/// Returns the verdict on a highest water of two equal maxima, at minutes 2 and 6, over the 8 minutes
/// from 0 on.
fn verdict(alloc: Global, at: i64, value: i128, cells: &[PeakCell]) -> Option<PeakVerdict> {
    let cells = PeakCells::from_vec(Vec::from_slice(alloc, cells).ok()?);
    let first = Top { at: 2, value: 5 };
    let second = Top { at: 6, value: 5 };
    let mut curve = Hills::new(first, second, 1);
    checked(&mut curve, &Peak { at, value, cells }, 0, 8)
}

const SINGLES: &[PeakCell] = &[SINGLE; 8];

const BY_RULE: &[PeakCell] = &[SINGLE, SINGLE, SINGLE, SINGLE, PeakCell::Under(4)];

const TOO_LONG: &[PeakCell] = &[PeakCell::Under(u32::MAX), PeakCell::Under(u32::MAX)];

const TOO_HIGH: &[PeakCell] = &[PeakCell::Under(2), PeakCell::Under(6)];

const WRONG_LENGTH: PeakVerdict = PeakVerdict::WrongLength {
    covered: 1,
    wanted: 8,
};

const WRONG_LENGTHS: PeakVerdict = PeakVerdict::WrongLength {
    covered: 8_589_934_590,
    wanted: 8,
};

const WRONG_VALUE: PeakVerdict = PeakVerdict::WrongValue {
    written: 6,
    computed: 5,
};

/// A minute, its value, cells, and the verdict on them.
const VERDICTS: &[(i64, i128, &[PeakCell], PeakVerdict)] = &[
    (2, 5, BY_RULE, PeakVerdict::Accepted),
    (2, 5, SINGLES, PeakVerdict::Accepted),
    (9, 5, &[SINGLE], WRONG_LENGTH),
    (2, 5, TOO_LONG, WRONG_LENGTHS),
    (8, 3, SINGLES, PeakVerdict::Outside),
    (2, 99, TOO_HIGH, PeakVerdict::NotUnder { cell: 2 }),
    (2, 6, SINGLES, WRONG_VALUE),
    (6, 5, SINGLES, PeakVerdict::Above { cell: 3 }),
    (1, 4, SINGLES, PeakVerdict::Above { cell: 3 }),
];

#[test]
fn verdicts_are_named(rt: HostRuntime) {
    for (place, &(at, value, cells, wanted)) in VERDICTS.iter().enumerate() {
        let found = verdict(rt.alloc(), at, value, cells);
        assert_holds(&rt, found == Some(wanted), place);
    }
}
