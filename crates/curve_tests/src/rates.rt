//! Rates of slopes and of levels.

use crate::asserts::assert_holds;
use crate::evaluating::{has_kinds, note_at, value_at};
use crate::stations::pier;
use curve_law::{Curve, Kind};
use rate_bound::*;
use station_curve::StationCurve;
use std::process::Abort;
use year_blend::LONGEST_SPAN;

/// The rate of a cell, the values at both ends and the level at its beginning.
type Stated = (Option<i128>, i128, i128, i64);

/// Returns the rate of the cell of `n` minutes from minute `a` on, or `None` if the curve has no such
/// cell.
fn cell_rate<C: Curve>(curve: &C, a: i64, n: u32) -> Option<Option<i128>> {
    let end = a.checked_add(i64::from(n))?;
    if n == 0 || n > LONGEST_SPAN || a < curve.first() || curve.last() < end {
        return None;
    }
    Some(curve.rate(a, n))
}

/// Returns true if the cell of `n` minutes from minute `a` on has the rate, the values and the level
/// `want`.
fn states<C: Curve>(curve: &mut C, a: i64, n: u32, want: Stated) -> bool {
    let (rate, begin, end, level) = want;
    cell_rate(curve, a, n) == Some(rate)
        && value_at(curve, a) == Some(begin)
        && value_at(curve, a.saturating_add(i64::from(n))) == Some(end)
        && note_at(curve, a) == Some(level)
}

const SLOPE_RATE: Option<i128> = Some(10_857_785_564_160_000_000_000_000_000_000);

const SLOPE_RATE_ACROSS: Option<i128> = Some(202_958_823_641_415_808_556_800_000_000_000);

const STEEP: i128 = 622_080_000_000_000_000_000_000_000_000_000;

const LATER: i128 = 584_097_739_822_080_000_000_000_000_000_000;

const DAY: i128 = -86_788_214_691_840_000_000_000_000_000_000;

const PLAIN: Stated = (SLOPE_RATE, 0, DAY, 1_000_000);

const EVE: Stated = (None, STEEP, LATER, 866_025);

const EVE_ACROSS: Stated = (SLOPE_RATE_ACROSS, STEEP, LATER, 866_025);

/// A cell: its first minute, its minutes, and what is stated of it outside new years and everywhere.
const SLOPES: &[(i64, u32, Stated, Stated)] = &[
    (15_791_040, 8, PLAIN, PLAIN),
    (15_778_020, 4, EVE, EVE_ACROSS),
];

fn check_slopes<C: Curve>(rt: &impl Abort, plain_parts: &mut C, all_parts: &mut C) {
    for &(a, n, outside, everywhere) in SLOPES {
        assert_holds(rt, states(plain_parts, a, n, outside), a);
        assert_holds(rt, states(all_parts, a, n, everywhere), a);
    }
    let beyond = cell_rate(plain_parts, 16_830_719, 2);
    assert_holds(rt, beyond.is_none(), "beyond");
    assert_holds(rt, plain_parts.evaluations() == 4, "evaluations");
    assert_holds(rt, has_kinds(plain_parts, Kind::Low, Kind::High), "kinds");
}

const HIGH: i128 = 4_147_200_000_000_000_000_000_000_000_000;

/// What is stated of a quarter of a period, and of a third of one. Their rates are those of the level,
/// 36,192,618,547,200,000,000,000, times the factor of the curve, 1,000,000 or 2,000,000.
const QUARTER: Stated = (
    Some(36_192_618_547_200_000_000_000_000_000),
    HIGH,
    0,
    1_000_000,
);

const THIRD: Stated = (
    Some(72_385_237_094_400_000_000_000_000_000),
    HIGH,
    0,
    1_000_000,
);

const MARK_RATE_ACROSS: i128 = 331_585_237_094_400_000_000_000_000_000;

fn check_levels(rt: &impl Abort, station: &StationCurve) {
    let mut slack = MarkCurve::over(station, 1_000_000, 0, 0, true);
    assert_holds(rt, states(&mut slack, 15_791_040, 180, QUARTER), "quarter");
    let eve = cell_rate(&slack, 15_778_020, 4);
    assert_holds(rt, eve == Some(None), "eve");
    assert_holds(
        rt,
        has_kinds(&slack, Kind::FloodBegins, Kind::EbbBegins),
        "kinds",
    );
}

fn check_marks(rt: &impl Abort, station: &StationCurve) {
    let version = Version::Second;
    let mut mark = MarkCurve::new(station, version, 2_000_000, 500_000, 1_500_000, false);
    assert_holds(rt, states(&mut mark, 15_791_040, 120, THIRD), "third");
    let eve = cell_rate(&mark, 15_778_020, 4);
    assert_holds(rt, eve == Some(Some(MARK_RATE_ACROSS)), "eve");
    assert_holds(
        rt,
        has_kinds(&mark, Kind::MarkRising, Kind::MarkFalling),
        "kinds",
    );
}

#[test]
fn slopes_levels_and_marks_have_their_rates(rt: HostRuntime) {
    let station = pier(rt.alloc(), "0", "1").expect(&rt, "a station");
    let mut plain_parts = TurnCurve::over(&station);
    let mut all_parts = TurnCurve::blended(&station);
    check_slopes(&rt, &mut plain_parts, &mut all_parts);
    check_levels(&rt, &station);
    check_marks(&rt, &station);
}

#[test]
fn laws_and_rows_stand(_rt: HostRuntime) {
    curves_are_lawful();
    worked_rates();
    worked_turns();
    worked_marks();
}
