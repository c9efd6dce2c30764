ghost use Rattle.zone_time.specs.Zones.{IsZone};

use crate::asserts::assert_holds;
use crate::lists::{TIDE, events_of, is_in_years, is_text};
use calendar_sheet::*;
use curve_law::Kind;
use decimal_text::Text;
use harmonics_book::Units;
use std::alloc::{AllocError, Global};
use std::process::Abort;
use zone_time::{Zone, read_zone};

/// A file of two offsets: six hours ahead of universal time, and one hour behind it from
/// 2000-01-10T20:00Z on.
const SET_BACK: &[u8] = b"TZif\0\0\0\0\0\0\0\0\0\0\0\0\0\0\0\0\0\0\0\0\0\0\0\0\0\0\0\0\
    \0\0\0\x01\0\0\0\x02\0\0\0\x08\x38\x7a\x3a\x40\x01\0\0\x54\x60\0\0\xff\xff\xf1\xf0\0\x04AAA\0BBB\0";

/// Returns the zone `utc_offset` minutes ahead of universal time, or the file's zone if there is no
/// number.
fn zone_of(alloc: Global, utc_offset: Option<i32>) -> Zone
    ensures { IsZone result }
{
    match utc_offset {
        Some(utc_offset) if (-1560..=1560).contains(&utc_offset) => Zone::Fixed(utc_offset),
        Some(_) => Zone::Utc,
        None => match read_zone(alloc, SET_BACK) {
            Ok(zone) => zone,
            Err(_) => Zone::Utc,
        },
    }
}

/// The minutes by which a clock is ahead, the span's ends, events, and the calendar.
type Calendar = (
    Option<i32>,
    i64,
    i64,
    &'static [(i64, Kind, i64)],
    &'static str,
);

static CALENDARS: &[Calendar] = &[
    (
        Some(0),
        15791040,
        15792480,
        TIDE,
        "Pier\n2000-01-10  06:00 -1.00 Low Tide  11:59 1.00 High Tide  18:00 -1.00 Low Tide  23:59 1.00 High Tide\n",
    ),
    (
        Some(-300),
        15791040,
        15792480,
        TIDE,
        "Pier\n2000-01-09\n\
        2000-01-10  01:00 -1.00 Low Tide  06:59 1.00 High Tide  13:00 -1.00 Low Tide  18:59 1.00 High Tide\n",
    ),
    (
        Some(720),
        15791040,
        15792480,
        TIDE,
        "Pier\n2000-01-10  18:00 -1.00 Low Tide  23:59 1.00 High Tide\n\
        2000-01-11  06:00 -1.00 Low Tide  11:59 1.00 High Tide\n",
    ),
    (
        None,
        15791040,
        15792480,
        TIDE,
        "Pier\n2000-01-10  12:00 -1.00 Low Tide  17:59 1.00 High Tide  22:59 1.00 High Tide\n\
        2000-01-11  00:00 -1.00 Low Tide\n",
    ),
    (Some(0), 15791040, 15791040, &[], "Pier\n"),
    (Some(0), 15791100, 15791160, &[], "Pier\n2000-01-10\n"),
    (
        Some(0),
        15863100,
        15867420,
        &[(15866000, Kind::MarkFalling, -5000)],
        "Pier\n2000-02-29\n2000-03-01\n2000-03-02  01:20 -0.01 Mark Falling\n2000-03-03\n",
    ),
];

/// Returns true if a calendar of the events has this text.
fn is_calendar(alloc: Global, name: &Text, calendar: &Calendar) -> bool {
    let &(utc_offset, begin, end, items, expected) = calendar;
    if !is_in_years(begin) || !is_in_years(end) || end < begin {
        return false;
    }
    let zone = zone_of(alloc, utc_offset);
    match events_of(alloc, Units::Feet, items) {
        Ok(events) => {
            let text = calendar_text(alloc, name, Units::Feet, &events, &zone, begin, end);
            is_text(text, expected)
        }
        Err(_) => false,
    }
}

fn check_calendars(rt: &impl Abort, alloc: Global, name: &Text) {
    for calendar in CALENDARS {
        assert_holds(rt, is_calendar(alloc, name, calendar), calendar.4);
    }
}

#[test]
fn dates_are_shown(rt: HostRuntime) -> Result<(), AllocError> {
    let name = Text::from_str(rt.alloc(), "Pier")?;
    check_calendars(&rt, rt.alloc(), &name);
    Ok(())
}

#[test]
fn rows_stand(_rt: HostRuntime) {
    worked_calendars();
}
