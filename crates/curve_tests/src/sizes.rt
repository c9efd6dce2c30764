//! The events of a year.

ghost use Rattle.std.specs.Prelude.{◌≡◌, ◌≤◌, pos, ◌≤ℤ◌, IfOk, IsTrue};
ghost use Rattle.curve_law.specs.Cells.{all_minutes};

use crate::asserts::assert_holds;
use crate::events::{are_movable, dock, event, taken};
use crate::stations::pier;
use curve_law::{Cells, Curve, Event, Events, Kind, Tracks};
use event_list::{Merge, merged, shifted, track_events};
use interval_search::{Search, search};
use rate_bound::{MarkCurve, TurnCurve};
use station_curve::{CurveFault, StationCurve};
use std::alloc::{AllocError, Global};
use std::process::Abort;

/// The first minute of 2000.
const BEGIN: i64 = 15_778_080;

/// The first minute of 2001.
const END: i64 = 16_305_120;

/// Returns true if a curve that wasn't evaluated yet has all minutes of the year 2000.
fn has_year<C: Curve>(curve: &C) -> bool
    ensures { IsTrue result → ((C.state curve.now).curve_model.curve_spec.first ≤ℤ pos 15778080)
        × (pos 16305120 ≤ℤ (C.state curve.now).curve_model.curve_spec.last) × ((C.state curve.now).count ≡ 0) }
{
    curve.first() <= BEGIN && END <= curve.last() && curve.evaluations() == 0
}

/// Returns the cells of a curve over the year 2000, or an error if the curve doesn't have all its
/// minutes.
fn year_cells<C: Curve>(alloc: Global, curve: &mut C) -> Result<Cells, AllocError>
    ensures { IfOk result (λ cells. all_minutes cells ≤ 6000000) }
{
    if !has_year(curve) {
        return Err(AllocError);
    }
    let cells = search(alloc, curve, BEGIN, END)?;
    Ok(cells)
}

/// Returns the cells of a pier's turns over the year 2000, and the number of evaluations.
fn pier_cells(rt: &impl Abort, alloc: Global) -> (Cells, u64)
    ensures { all_minutes result.0 ≤ 6000000 }
{
    let station = pier(alloc, "0", "1").expect(rt, "a station");
    let mut curve = TurnCurve::blended(&station);
    let cells = year_cells(alloc, &mut curve).expect(rt, "cells");
    (cells, curve.evaluations())
}

fn merged_turns(alloc: Global, turn: Cells) -> Result<Events, AllocError>
    requires { all_minutes turn ≤ 6000000 }
{
    let tracks = Tracks {
        turn,
        slack: None,
        mark: None,
    };
    merged(alloc, &tracks, BEGIN)
}

/// Returns true if a half-daily tide has a low at 6 and 18 o'clock and a high before noon and
/// midnight on each day.
fn is_a_year(events: &[Event]) -> bool {
    events.len() == 1_464
        && events.first() == Some(&event(BEGIN + 360, Kind::Low, -1_000_000))
        && events.last() == Some(&event(END - 1, Kind::High, 999_962))
}

/// Returns true if the events of the year are moved to the dock.
fn are_moved(alloc: Global, events: &Events) -> bool {
    if !are_movable(events.as_slice()) {
        return false;
    }
    let last = event(END - 370, Kind::Low, -900_000);
    match shifted(alloc, events, &dock(None), BEGIN, END) {
        Ok(moved) => moved.as_slice().len() == 1_463 && moved.as_slice().last() == Some(&last),
        Err(_) => false,
    }
}

fn check_merged(rt: &impl Abort, alloc: Global, events: &Events, turns: &Events) {
    assert_holds(rt, is_a_year(turns.as_slice()), "turns");
    assert_holds(rt, events.as_slice() == turns.as_slice(), "merged turns");
    assert_holds(rt, are_moved(alloc, events), "moved turns");
}

fn check_cells(rt: &impl Abort, alloc: Global, cells: Cells)
    requires { all_minutes cells ≤ 6000000 }
{
    let turns = track_events(alloc, &cells, BEGIN).expect(rt, "turns");
    let events = merged_turns(alloc, cells).expect(rt, "merged turns");
    check_merged(rt, alloc, &events, &turns);
}

#[test]
fn a_year_has_its_events(rt: HostRuntime) {
    let (cells, evaluations) = pier_cells(&rt, rt.alloc());
    assert_holds(&rt, cells.as_slice().len() == 20_553, "cells");
    assert_holds(&rt, evaluations <= 20_554, "evaluations");
    check_cells(&rt, rt.alloc(), cells);
}

/// Returns the events of a curve in the year, found one at a time, and the number of their cells. The curve
/// is valid there.
fn one_by_one<C: Curve + Drop>(rt: &impl Abort, alloc: Global, curve: C) -> (Vec<Event>, u64) {
    assert!(rt; has_year(&curve));
    let mut merge = Merge::new(Search::new(curve, BEGIN, END), None, None);
    counted(rt, alloc, &mut merge)
}

fn counted<C: Curve>(rt: &impl Abort, alloc: Global, merge: &mut Merge<C, C>) -> (Vec<Event>, u64) {
    let events = taken(alloc, merge).expect(rt, "events");
    (events, merge.cells())
}

fn check_turns(rt: &impl Abort, alloc: Global, station: &StationCurve) {
    let (events, cells) = one_by_one(rt, alloc, TurnCurve::blended(station));
    assert_holds(rt, is_a_year(events.as_slice()), "turns");
    assert_holds(rt, cells == 20_553, "cells of turns");
}

fn check_marks(rt: &impl Abort, alloc: Global, station: &StationCurve) {
    let mark = MarkCurve::blended(station, 1_000_000, 0, 500_000, false);
    let (events, cells) = one_by_one(rt, alloc, mark);
    assert_holds(rt, events.len() == 1_464, "marks");
    assert_holds(rt, cells == 19_767, "cells of marks");
}

#[test]
fn a_year_comes_one_event_at_a_time(rt: HostRuntime) -> Result<(), CurveFault> {
    let station = pier(rt.alloc(), "0", "1")?;
    check_turns(&rt, rt.alloc(), &station);
    check_marks(&rt, rt.alloc(), &station);
    Ok(())
}
