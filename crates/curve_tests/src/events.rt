ghost use Rattle.std.specs.Prelude.{◌≡◌, All, IfOk, IsTrue};
ghost use Rattle.std.specs.Option.{ForSome};
ghost use Rattle.station_table.specs.Offsets.{IsSlack};
ghost use Rattle.event_list.specs.Events.{AreShort};
ghost use Rattle.event_list.specs.Shifts.{HasOffsets, IsMovable};

use crate::asserts::assert_holds;
use curve_law::samples::{Line, Ripple};
use curve_law::{Cell, Cells, Curve, Event, Events, Kind, Tracks};
use event_list::*;
use event_text::worked_words;
use harmonics_book::Units;
use interval_search::Search;
use station_table::{Basis, Offset, Slack};
use std::alloc::{AllocError, Global};
use std::process::Abort;

/// A unit, an event's kind and level, and its name.
const NAMES: &[(Units, Kind, i64, &str)] = &[
    (Units::Feet, Kind::High, 999962, "High Tide"),
    (Units::Meters, Kind::Low, -1000000, "Low Tide"),
    (Units::Feet, Kind::MarkRising, 500000, "Mark Rising"),
    (Units::Meters, Kind::MarkFalling, 507538, "Mark Falling"),
    (Units::Knots, Kind::High, 999962, "Max Flood"),
    (Units::Knots, Kind::High, 0, "Min Ebb"),
    (Units::Knots, Kind::Low, 1000000, "Min Flood"),
    (Units::Knots, Kind::Low, -1000000, "Max Ebb"),
    (Units::Knots, Kind::FloodBegins, 0, "Slack Flood Begins"),
    (Units::Knots, Kind::EbbBegins, 8727, "Slack Ebb Begins"),
];

#[test]
fn names_go_by_the_unit(rt: HostRuntime) {
    for &(units, kind, level, name) in NAMES {
        assert_holds(&rt, named(units, kind, level) == Some(name), name);
    }
}

/// Returns the name of an event, or `None` if it has none.
fn named(units: Units, kind: Kind, level: i64) -> Option<&'static str> {
    let is_slack = matches!(kind, Kind::FloodBegins | Kind::EbbBegins);
    match units {
        Units::KnotsSquared => None,
        Units::Feet | Units::Meters if is_slack => None,
        _ => Some(word(units, kind, level).text()),
    }
}

#[test]
fn laws_and_rows_stand(_rt: HostRuntime) {
    cells_give_the_events();
    plain_bases_move_nothing();
    accepted_events_can_be_moved();
    events_are_named();
    worked_words();
    worked_shifts();
    worked_orders();
    worked_stations();
}

pub fn event(minute: i64, kind: Kind, level: i64) -> Event {
    Event {
        minute,
        kind,
        level,
    }
}

/// Returns a station with these offsets from its reference station: high waters are 30 minutes later,
/// with 1.1 times the level plus 0.1 units, and low waters 10 minutes earlier, with 0.9 times the
/// level. `slack` are its offsets for slack waters, if any.
pub fn dock(slack: Option<Slack>) -> Basis
    requires { ForSome slack IsSlack }
    ensures { HasOffsets result }
{
    Basis {
        station: 0,
        row: Some(0),
        high: Offset {
            add: 30,
            times: 1_100_000,
            plus: 100_000,
        },
        low: Offset {
            add: -10,
            times: 900_000,
            plus: 0,
        },
        slack,
    }
}

/// Returns true if offsets can be applied to all `events`: the absolute value of each minute is at most
/// 10^12, and of each level at most 11,000 units.
pub fn are_movable(events: &[Event]) -> bool
    ensures { IsTrue result → All IsMovable events.now }
{
    events.iter().all(|event| is_movable(event))
}

fn is_movable(event: &Event) -> bool
    ensures { IsTrue result → IsMovable event.now }
{
    let in_range = -1_000_000_000_000 <= event.minute && event.minute <= 1_000_000_000_000;
    in_range && -11_000_000_000 <= event.level && event.level <= 11_000_000_000
}

/// A current's turns and slacks from half an hour before a midnight to ten minutes after the next.
#[tactic(auto, unfolding(curve_law::specs::Cells::all_minutes))]
fn current(rt: &impl Abort, alloc: Global) -> Tracks
    ensures { AreShort result }
{
    let turn = vec![in alloc;
        Cell::Quiet(29),
        Cell::Turn(Kind::High, 999962),
        Cell::Quiet(360),
        Cell::Turn(Kind::Low, -1000000),
        Cell::Quiet(358),
        Cell::Turn(Kind::High, 999962),
        Cell::Quiet(360),
        Cell::Turn(Kind::Low, -1000000),
        Cell::Quiet(358),
        Cell::Turn(Kind::High, 999962),
        Cell::Quiet(10),
    ]
    .expect(rt, "turns");
    let slack = vec![in alloc;
        Cell::Quiet(209),
        Cell::Turn(Kind::EbbBegins, 8727),
        Cell::Quiet(360),
        Cell::Turn(Kind::FloodBegins, 0),
        Cell::Quiet(909),
    ]
    .expect(rt, "slacks");
    Tracks {
        turn: Cells::from_vec(turn),
        slack: Some(Cells::from_vec(slack)),
        mark: None,
    }
}

/// Returns true if the events have these minutes, kinds and levels.
fn are_events(events: &[Event], wanted: &[(i64, Kind, i64)]) -> bool {
    for (place, &(minute, kind, level)) in wanted.iter().enumerate() {
        if place >= events.len() || events[place] != event(minute, kind, level) {
            return false;
        }
    }
    events.len() == wanted.len()
}

/// The events of the current at the gate.
const SHIFTED: &[(i64, Kind, i64)] = &[
    (29, Kind::High, 1199958),
    (174, Kind::EbbBegins, 8727),
    (350, Kind::Low, -900000),
    (545, Kind::FloodBegins, 0),
    (749, Kind::High, 1199958),
    (1070, Kind::Low, -900000),
];

fn gate() -> Basis
    ensures { HasOffsets result }
{
    dock(Some(Slack {
        flood_add: 5,
        ebb_add: -5,
    }))
}

fn merged_current(rt: &impl Abort, alloc: Global) -> Events {
    let tracks = current(rt, alloc);
    merged(alloc, &tracks, -30).expect(rt, "events")
}

fn are_shifted(alloc: Global, events: &Events) -> bool {
    if !are_movable(events.as_slice()) {
        return false;
    }
    match shifted(alloc, events, &gate(), 0, 1440) {
        Ok(shifted) => are_events(shifted.as_slice(), SHIFTED),
        Err(_) => false,
    }
}

#[test]
fn currents_are_shifted(rt: HostRuntime) {
    let events = merged_current(&rt, rt.alloc());
    assert_holds(&rt, events.as_slice().len() == 7, "events");
    assert_holds(&rt, are_shifted(rt.alloc(), &events), "shifted events");
}

#[test]
fn spans_are_widened(rt: HostRuntime) {
    let span = widened(&gate(), 0, 1440);
    assert!(rt; span.begin == -30 && span.end == 1450);
}

/// Returns the merged events of a line and of a ripple from minute 0 to 3.
fn line_and_ripple() -> Merge<Line, Ripple> {
    let turn = Line::new(-2, false, 1);
    let merge = Merge::new(
        Search::new(turn, 0, 3),
        Some(Search::new(Ripple::new(), 0, 3)),
        None,
    );
    merge
}

const MERGED: &[(i64, Kind, i64)] = &[
    (0, Kind::MarkFalling, 0),
    (1, Kind::MarkRising, 0),
    (2, Kind::Low, 2),
    (2, Kind::MarkFalling, 0),
];

#[test]
fn events_come_one_at_a_time(rt: HostRuntime) {
    let mut merge = line_and_ripple();
    let events = taken(rt.alloc(), &mut merge).expect(&rt, "events");
    assert_holds(&rt, are_events(events.as_slice(), MERGED), "events");
    assert_holds(&rt, merge.cells() == 6, "cells");
    assert_holds(&rt, merge.next().is_none(), "no further event");
}

/// The minute of each event, and the number of cells that the searches have found after it.
const FOUND: &[(i64, u64)] = &[(0, 4), (1, 5), (2, 6), (2, 6)];

fn is_next<A: Curve, B: Curve>(merge: &mut Merge<A, B>, minute: i64, cells: u64) -> bool {
    match merge.next() {
        Some(event) => event.minute == minute && merge.cells() == cells,
        None => false,
    }
}

#[test]
fn cells_are_counted_as_they_are_given(rt: HostRuntime) {
    let mut merge = line_and_ripple();
    assert_holds(&rt, merge.cells() == 0, "at first");
    for &(minute, cells) in FOUND {
        assert_holds(&rt, is_next(&mut merge, minute, cells), minute);
    }
}

/// Returns all remaining events of `merge` as a list, in order of time.
///
/// # Errors
/// [`AllocError`] if memory runs out.
pub fn taken<A: Curve, B: Curve>(
    alloc: Global,
    merge: &mut Merge<A, B>,
) -> Result<Vec<Event>, AllocError>
    ensures { IfOk result (λ events. events.items ≡ merge.old.remaining) }
{
    let mut events = Vec::new(alloc);
    while let Some(event) = merge.next() {
        events.push(event)?;
    }
    Ok(events)
}
