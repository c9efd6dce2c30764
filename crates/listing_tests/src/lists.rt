ghost use Rattle.std.specs.Prelude.{All, IfOk, IsTrue};
ghost use Rattle.event_text.specs.Lines.{IsListed};
ghost use Rattle.zone_time.specs.Zones.{IsZone, InZoneYears};

use crate::asserts::assert_holds;
use arrayvec::ArrayString;
use curve_law::{Event, Events, Kind};
use decimal_text::{Bytes, Text};
use event_text::{height_line, worked_levels, worked_lines};
use harmonics_book::Units;
use listing::*;
use std::alloc::{AllocError, Global};
use std::process::Abort;
use zone_time::{Label, Local, Zone};

pub fn is_in_years(minute: i64) -> bool
    ensures { IsTrue result → InZoneYears minute }
{
    (-1_035_069_120..=3_855_733_919).contains(&minute)
}

fn is_row(row: &Row) -> bool
    ensures { IsTrue result → InZoneYears row.now.minute }
{
    is_in_years(row.minute)
}

pub fn is_listed(units: Units, event: &Event) -> bool
    ensures { IsTrue result → IsListed units event.now }
{
    let is_named = match units {
        Units::Feet | Units::Meters => {
            !matches!(event.kind, Kind::FloodBegins | Kind::EbbBegins)
        }
        Units::Knots => true,
        Units::KnotsSquared => false,
    };
    is_named && is_in_years(event.minute)
}

fn are_listed(units: Units, events: &[Event]) -> bool
    ensures { IsTrue result → All (IsListed units) events.now }
{
    events.iter().all(|event| is_listed(units, event))
}

/// Returns the events with the given minutes (since 1970-01-01T00:00Z), kinds and levels (in millionths
/// of `units`), in the same order.
///
/// # Errors
/// [`AllocError`] if memory runs out, or if an event has no name in `units` or has a minute that isn't
/// in the years 2 to 9300 or on the day before them.
pub fn events_of(
    alloc: Global,
    units: Units,
    items: &[(i64, Kind, i64)],
) -> Result<Events, AllocError>
    ensures { IfOk result (All (IsListed units)) }
{
    let mut events = Vec::new(alloc);
    for &(minute, kind, level) in items {
        events.push(Event {
            minute,
            kind,
            level,
        })?;
    }
    if are_listed(units, &events) {
        Ok(Events::from_vec(events))
    } else {
        Err(AllocError)
    }
}

fn are_rows(rows: &[Row]) -> bool
    ensures { IsTrue result → All (λ row. InZoneYears row.minute) rows.now }
{
    rows.iter().all(|row| is_row(row))
}

/// Returns minutes since 1970-01-01T00:00Z and levels in millionths as rows, or an error if a minute
/// isn't in the years 2 to 9300 or on the day before them.
fn rows_of(alloc: Global, items: &[(i64, i64)]) -> Result<Rows, AllocError>
    ensures { IfOk result (All (λ row. InZoneYears row.minute)) }
{
    let mut rows = Vec::new(alloc);
    for &(minute, level) in items {
        rows.push(Row { minute, level })?;
    }
    if are_rows(&rows) {
        Ok(Rows::from_vec(rows))
    } else {
        Err(AllocError)
    }
}

/// Returns the zone that is `utc_offset` minutes ahead of universal time, or universal time if
/// `utc_offset` is 0 or isn't from -1,560 to 1,560.
pub fn zone_of(utc_offset: i32) -> Zone
    ensures { IsZone result }
{
    if utc_offset == 0 || !(-1560..=1560).contains(&utc_offset) {
        Zone::Utc
    } else {
        Zone::Fixed(utc_offset)
    }
}

pub const TIDE: &[(i64, Kind, i64)] = &[
    (15791400, Kind::Low, -1000000),
    (15791759, Kind::High, 999962),
    (15792120, Kind::Low, -1000000),
    (15792479, Kind::High, 999962),
];

const CURRENT: &[(i64, Kind, i64)] = &[
    (15791219, Kind::EbbBegins, 8727),
    (15791400, Kind::Low, -1000000),
    (15791460, Kind::MarkRising, -500000),
    (15791580, Kind::FloodBegins, 0),
];

/// Returns true if `made` is a text equal to `expected`, and false if it differs or is an error.
pub fn is_text(made: Result<Bytes, AllocError>, expected: &str) -> bool {
    match made {
        Ok(text) => text.as_slice() == expected.as_bytes(),
        Err(_) => false,
    }
}

/// A station, its unit, the minutes by which a clock is ahead, events, and both listings of them.
type EventLists = (
    &'static str,
    Units,
    i32,
    &'static [(i64, Kind, i64)],
    &'static str,
    &'static str,
);

static EVENTS: &[EventLists] = &[
    (
        "Pier",
        Units::Feet,
        0,
        TIDE,
        "Pier\n\
        2000-01-10 06:00 UTC      -1.00 feet  Low Tide\n\
        2000-01-10 11:59 UTC       1.00 feet  High Tide\n\
        2000-01-10 18:00 UTC      -1.00 feet  Low Tide\n\
        2000-01-10 23:59 UTC       1.00 feet  High Tide\n",
        "station,moment,local,event,level,units\n\
        Pier,2000-01-10T06:00Z,2000-01-10 06:00,Low Tide,-1.000000,feet\n\
        Pier,2000-01-10T11:59Z,2000-01-10 11:59,High Tide,0.999962,feet\n\
        Pier,2000-01-10T18:00Z,2000-01-10 18:00,Low Tide,-1.000000,feet\n\
        Pier,2000-01-10T23:59Z,2000-01-10 23:59,High Tide,0.999962,feet\n",
    ),
    (
        "Pier, \"old\"",
        Units::Meters,
        345,
        &[(15792479, Kind::High, 999962)],
        "Pier, \"old\"\n2000-01-11 05:44 +05:45       1.00 meters  High Tide\n",
        "station,moment,local,event,level,units\n\
        \"Pier, \"\"old\"\"\",2000-01-10T23:59Z,2000-01-11 05:44,High Tide,0.999962,meters\n",
    ),
    (
        "Gaté",
        Units::Knots,
        -300,
        CURRENT,
        "Gaté\n\
        2000-01-09 21:59 -05:00       0.01 knots  Slack Ebb Begins\n\
        2000-01-10 01:00 -05:00      -1.00 knots  Max Ebb\n\
        2000-01-10 02:00 -05:00      -0.50 knots  Mark Rising\n\
        2000-01-10 04:00 -05:00       0.00 knots  Slack Flood Begins\n",
        "station,moment,local,event,level,units\n\
        Gaté,2000-01-10T02:59Z,2000-01-09 21:59,Slack Ebb Begins,0.008727,knots\n\
        Gaté,2000-01-10T06:00Z,2000-01-10 01:00,Max Ebb,-1.000000,knots\n\
        Gaté,2000-01-10T07:00Z,2000-01-10 02:00,Mark Rising,-0.500000,knots\n\
        Gaté,2000-01-10T09:00Z,2000-01-10 04:00,Slack Flood Begins,0.000000,knots\n",
    ),
    (
        "Pier",
        Units::Feet,
        0,
        &[],
        "Pier\n",
        "station,moment,local,event,level,units\n",
    ),
];

fn are_lists_of(alloc: Global, name: &Text, lists: &EventLists) -> bool {
    let &(_, units, utc_offset, items, plain, csv) = lists;
    let zone = zone_of(utc_offset);
    match events_of(alloc, units, items) {
        Ok(events) => {
            is_text(plain_events(alloc, name, units, &events, &zone), plain)
                && is_text(csv_events(alloc, name, units, &events, &zone), csv)
        }
        Err(_) => false,
    }
}

fn are_event_lists(alloc: Global, lists: &EventLists) -> bool {
    match Text::from_str(alloc, lists.0) {
        Ok(name) => are_lists_of(alloc, &name, lists),
        Err(_) => false,
    }
}

#[test]
fn events_are_listed(rt: HostRuntime) {
    for lists in EVENTS {
        assert_holds(&rt, are_event_lists(rt.alloc(), lists), lists.4);
    }
}

/// The minutes by which a clock is ahead, levels, and both listings of them.
type HeightLists = (i32, &'static [(i64, i64)], &'static str, &'static str);

static HEIGHTS: &[HeightLists] = &[
    (
        -300,
        &[(15791040, 1000000), (15791400, -1000000)],
        "Pier\n\
        2000-01-09 19:00 -05:00       1.00 feet\n\
        2000-01-10 01:00 -05:00      -1.00 feet\n",
        "station,moment,local,level,units\n\
        Pier,2000-01-10T00:00Z,2000-01-09 19:00,1.000000,feet\n\
        Pier,2000-01-10T06:00Z,2000-01-10 01:00,-1.000000,feet\n",
    ),
    (
        0,
        &[(15778380, 3004334)],
        "Pier\n2000-01-01 05:00 UTC       3.00 feet\n",
        "station,moment,local,level,units\n\
        Pier,2000-01-01T05:00Z,2000-01-01 05:00,3.004334,feet\n",
    ),
];

fn are_height_lists(alloc: Global, name: &Text, lists: &HeightLists) -> bool {
    let &(utc_offset, items, plain, csv) = lists;
    let zone = zone_of(utc_offset);
    match rows_of(alloc, items) {
        Ok(rows) => {
            is_text(plain_heights(alloc, name, Units::Feet, &rows, &zone), plain)
                && is_text(csv_heights(alloc, name, Units::Feet, &rows, &zone), csv)
        }
        Err(_) => false,
    }
}

fn check_heights(rt: &impl Abort, alloc: Global, name: &Text) {
    for lists in HEIGHTS {
        assert_holds(rt, are_height_lists(alloc, name, lists), lists.2);
    }
}

#[test]
fn heights_are_listed(rt: HostRuntime) -> Result<(), AllocError> {
    let name = Text::from_str(rt.alloc(), "Pier")?;
    check_heights(&rt, rt.alloc(), &name);
    Ok(())
}

/// A direction, the minutes by which a clock is ahead, events, and the listing of the level now.
type Clock = (bool, i32, &'static [(i64, Kind, i64)], &'static str);

static CLOCKS: &[Clock] = &[
    (
        false,
        0,
        TIDE,
        "Pier\n\
        Now 2000-01-10 03:00 UTC       0.00 feet  Falling\n\
        2000-01-10 06:00 UTC      -1.00 feet  Low Tide\n\
        2000-01-10 11:59 UTC       1.00 feet  High Tide\n\
        2000-01-10 18:00 UTC      -1.00 feet  Low Tide\n\
        2000-01-10 23:59 UTC       1.00 feet  High Tide\n",
    ),
    (
        true,
        -300,
        &[],
        "Pier\nNow 2000-01-09 22:00 -05:00       0.00 feet  Rising\n",
    ),
];

fn is_clock(alloc: Global, name: &Text, clock: &Clock) -> bool {
    let &(rising, utc_offset, items, expected) = clock;
    let zone = zone_of(utc_offset);
    match events_of(alloc, Units::Feet, items) {
        Ok(events) => {
            let now = 15_791_220;
            let text = clock_text(alloc, name, Units::Feet, now, 0, rising, &events, &zone);
            is_text(text, expected)
        }
        Err(_) => false,
    }
}

fn check_clocks(rt: &impl Abort, alloc: Global, name: &Text) {
    for clock in CLOCKS {
        assert_holds(rt, is_clock(alloc, name, clock), clock.3);
    }
}

#[test]
fn clocks_are_printed(rt: HostRuntime) -> Result<(), AllocError> {
    let name = Text::from_str(rt.alloc(), "Pier")?;
    check_clocks(&rt, rt.alloc(), &name);
    Ok(())
}

/// A level, its unit, and the line of it.
static LEVELS: &[(i64, Units, &str)] = &[
    (
        -15000,
        Units::Meters,
        "2000-01-10 00:00 +05:45      -0.02 meters",
    ),
    (
        14999,
        Units::Knots,
        "2000-01-10 00:00 +05:45       0.01 knots",
    ),
    (
        -4999,
        Units::Feet,
        "2000-01-10 00:00 +05:45       0.00 feet",
    ),
    (
        i64::MIN,
        Units::KnotsSquared,
        "2000-01-10 00:00 +05:45  -9223372036854.78 knots^2",
    ),
];

fn is_level_line(level: i64, units: Units, line: &str) -> bool {
    let local = Local {
        minute: 15791040,
        label: Label::Minutes(345),
    };
    let mut out = ArrayString::new();
    height_line(&local, level, units, &mut out);
    out.as_str() == line
}

#[test]
fn levels_are_rounded(rt: HostRuntime) {
    for &(level, units, line) in LEVELS {
        assert_holds(&rt, is_level_line(level, units, line), line);
    }
}

#[test]
fn rows_stand(_rt: HostRuntime) {
    worked_lines();
    worked_levels();
    worked_listings();
    worked_records();
    worked_stations();
}
