//! Moments, local times and zone files.

ghost use Rattle.zone_time.specs.Zones.{IsZone};

use crate::asserts::assert_holds;
use arrayvec::ArrayString;
use std::alloc::{AllocError, Global};
use std::process::Abort;
use zone_time::{
    Label, Local, Zone, ZoneFault, days_have_their_date, moments_have_one_text, read_moment,
    read_zone, worked_clocks, worked_locals, worked_readings, worked_texts, worked_zone_files,
    write_local, write_moment, zone_files_go_by_jiff,
};

/// A text, and its moment.
static READINGS: &[(&str, Option<i64>)] = &[
    ("2000-01-10T00:00Z", Some(15791040)),
    ("1970-01-01T00:00Z", Some(0)),
    ("1969-12-31T23:59Z", Some(-1)),
    ("2000-02-29T23:59Z", Some(15864479)),
    ("0001-01-01T00:00Z", Some(-1035593280)),
    ("9999-12-31T23:59Z", Some(4223371679)),
    ("", None),
    ("2000-01-10", None),
    ("2000-01-10T00:00", None),
    ("2000-01-10T00:00Z ", None),
    ("2000-01-10T00:00z", None),
    ("2000-01-10t00:00Z", None),
    ("2000-01-10 00:00Z", None),
    ("2000-1-10T00:00Z", None),
    ("+2000-01-10T0:00Z", None),
    ("2000-01-10T00.00Z", None),
    ("200a-01-10T00:00Z", None),
    ("0000-12-31T23:59Z", None),
    ("2000-00-10T00:00Z", None),
    ("2000-13-10T00:00Z", None),
    ("2000-01-00T00:00Z", None),
    ("2000-04-31T00:00Z", None),
    ("1900-02-29T00:00Z", None),
    ("2000-01-10T24:00Z", None),
    ("2000-01-10T23:60Z", None),
];

#[test]
fn moments_are_read(rt: HostRuntime) {
    for (text, moment) in READINGS {
        assert_holds(&rt, read_moment(text.as_bytes()) == *moment, *text);
    }
}

/// A moment, and its text.
static WRITINGS: &[(i64, &str)] = &[
    (15791040, "2000-01-10T00:00Z"),
    (-1, "1969-12-31T23:59Z"),
    (15864479, "2000-02-29T23:59Z"),
    (-1035593280, "0001-01-01T00:00Z"),
    (4223371679, "9999-12-31T23:59Z"),
];

fn is_moment(moment: i64, text: &str) -> bool {
    if moment < -1035593280 || moment > 4223371679 {
        return false;
    }
    let mut out = ArrayString::new();
    write_moment(moment, &mut out);
    out.as_str() == text
}

#[test]
fn moments_are_written(rt: HostRuntime) {
    for (moment, text) in WRITINGS {
        assert_holds(&rt, is_moment(*moment, text), *text);
    }
}

#[test]
fn laws_and_rows_stand(_rt: HostRuntime) {
    days_have_their_date();
    moments_have_one_text();
    worked_texts();
    worked_readings();
    worked_locals();
    worked_clocks();
    worked_zone_files();
    zone_files_go_by_jiff();
}

/// A local minute, its label, and the text.
static LOCALS: &[(i64, Label, &str)] = &[
    (15791400, Label::Utc, "2000-01-10 06:00 UTC"),
    (15791100, Label::Minutes(-300), "2000-01-10 01:00 -05:00"),
    (15881280, Label::Minutes(-240), "2000-03-12 16:00 -04:00"),
    (-1036120320, Label::Minutes(1560), "0000-01-01 00:00 +26:00"),
];

#[test]
fn local_times_are_written(rt: HostRuntime) {
    for (minute, label, text) in LOCALS {
        let local = Local {
            minute: *minute,
            label: *label,
        };
        let mut out = ArrayString::<23>::new();
        if is_written(&local) {
            write_local(&local, &mut out);
        }
        assert_holds(&rt, out.as_str() == *text, *text);
    }
}

fn is_written(local: &Local) -> bool {
    let has_label = match local.label {
        Label::Utc => true,
        Label::Minutes(utc_offset) => (-1560..=1560).contains(&utc_offset),
    };
    has_label && (-1036120320..=4223371679).contains(&local.minute)
}

/// The zone file of New York with a table up to 1999: no old block, three changes, three types.
const OLD_BLOCK: &[u8] =
    b"TZif2\0\0\0\0\0\0\0\0\0\0\0\0\0\0\0\0\0\0\0\0\0\0\0\0\0\0\0\0\0\0\0\0\0\0\x01\0\0\0\x01\0\0\0\0\0\0\0";

const HEAD: &[u8] =
    b"TZif2\0\0\0\0\0\0\0\0\0\0\0\0\0\0\0\0\0\0\0\0\0\0\0\0\0\0\0\0\0\0\x03\0\0\0\x03\0\0\0\x0c";

const CHANGES: &[u8] = b"\xff\xff\xff\xff^\x03\xf0\x90\0\0\0\06\xeb^p\0\0\0\08%\x15`\x02\x01\x02";

const TYPES: &[u8] =
    b"\xff\xff\xba\x9e\0\0\xff\xff\xc7\xc0\x01\x04\xff\xff\xb9\xb0\0\x08LMT\0EDT\0EST\0";

const FOOTER: &[u8] = b"\nEST5EDT,M3.2.0,M11.1.0\n";

fn joined(alloc: Global, parts: &[&[u8]]) -> Result<Vec<u8>, AllocError> {
    let mut bytes = Vec::new(alloc);
    for part in parts {
        bytes.extend_from_slice(part)?;
    }
    Ok(bytes)
}

fn new_york(alloc: Global, footer: &[u8]) -> Result<Vec<u8>, AllocError> {
    joined(alloc, &[OLD_BLOCK, HEAD, CHANGES, TYPES, footer])
}

/// A minute, and the minutes that New York is ahead of UTC.
static NEW_YORK: &[(i64, i32)] = &[
    (-63113760, -297),
    (-45294181, -297),
    (-45294180, -300),
    (15386820, -240),
    (15699239, -240),
    (15699240, -300),
    (15880739, -300),
    (15880740, -240),
    (16223399, -240),
    (16223400, -300),
];

/// Returns true if `zone` and its clock show `minute` with the offset `utc_offset`.
fn shows(zone: &Zone, minute: i64, utc_offset: i32) -> bool
    requires { IsZone zone.now }
{
    if minute < -1035069120 || minute > 3855733919 {
        return false;
    }
    let expected = minute + i64::from(utc_offset);
    let (local, of_clock) = (zone.local(minute), zone.clock().local(minute));
    (local.minute == expected)
        & (local.label == Label::Minutes(utc_offset))
        & (of_clock.minute == expected)
        & (of_clock.label == Label::Minutes(utc_offset))
}

/// Checks that `zone`, of a file, shows each minute of `times` with its offset.
fn check_times(rt: &impl Abort, zone: &Zone, times: &[(i64, i32)])
    requires { IsZone zone.now }
{
    for (minute, utc_offset) in times {
        assert_holds(rt, shows(zone, *minute, *utc_offset), *minute);
    }
    assert_holds(rt, matches!(zone.clock().zone(), Zone::File(_)), "a file");
}

/// Checks that the zone file `bytes` shows each minute of `times` with its offset.
fn check_file(rt: &impl Abort, alloc: Global, bytes: &[u8], times: &[(i64, i32)]) {
    let zone = read_zone(alloc, bytes).expect(rt, "a zone");
    check_times(rt, &zone, times);
}

#[test]
fn zones_show_local_times(rt: HostRuntime) {
    let bytes = new_york(rt.alloc(), FOOTER).expect(&rt, "a file");
    check_file(&rt, rt.alloc(), bytes.as_slice(), NEW_YORK);
}

#[test]
fn other_zones_show_local_times(rt: HostRuntime) {
    let local = Zone::Fixed(-300).local(15791400);
    assert_holds(&rt, local.minute == 15791100, "the minute");
    assert_holds(&rt, local.label == Label::Minutes(-300), "the label");
    let local = Zone::Utc.local(15791400);
    assert_holds(&rt, local.minute == 15791400, "the minute of UTC");
    assert_holds(&rt, local.label == Label::Utc, "the label of UTC");
}

const LONG_HEAD: &[u8] =
    b"TZif2\0\0\0\0\0\0\0\0\0\0\0\0\0\0\0\0\0\0\0\0\0\0\0\0\0\0\0\0\0\0\xec\0\0\0\x03\0\0\0\x0c";

/// Appends 236 changes, 182 and a half days from each to the next, the first in 1901, and the type of
/// local time that each begins.
fn push_changes(bytes: &mut Vec<u8>) -> Result<(), AllocError> {
    for change in 0..236u8 {
        let second = i64::from(change) * 15_768_000 - 2_177_452_800;
        bytes.extend_from_slice(&second.to_be_bytes())?;
    }
    for change in 0..236u32 {
        bytes.push(if change % 2 == 0 { 2 } else { 1 })?;
    }
    Ok(())
}

/// Returns a zone file with these changes.
fn changed_often(rt: &impl Abort, alloc: Global) -> Vec<u8> {
    let mut changes = Vec::new(alloc);
    push_changes(&mut changes).expect(rt, "changes");
    joined(alloc, &[OLD_BLOCK, LONG_HEAD, &changes, TYPES, FOOTER]).expect(rt, "a file")
}

/// A minute, and the minutes that the zone of many changes is ahead of UTC.
static MANY_CHANGES: &[(i64, i32)] = &[
    (-36290881, -297),
    (-36290880, -300),
    (-5543281, -300),
    (-5543280, -240),
    (25204319, -240),
    (25204320, -300),
    (25467119, -300),
    (25467120, -240),
    (25688519, -240),
    (25688520, -300),
];

#[test]
fn zones_of_many_changes_show_local_times(rt: HostRuntime) {
    let bytes = changed_often(&rt, rt.alloc());
    check_file(&rt, rt.alloc(), bytes.as_slice(), MANY_CHANGES);
}

const BAD_FOOTERS: &[&str] = &[
    "\nEST5EDT,M3.2.0,M12.1.0\n",
    "\nEST5EDT,M3.2.0,M11.1.0",
    "EST5EDT,M3.2.0,M11.1.0\n",
    "\nEST5EDT\n",
    "",
];

/// Returns true if the zone file with `footer` is a bad one.
fn is_bad(alloc: Global, footer: &str) -> bool {
    match new_york(alloc, footer.as_bytes()) {
        Ok(bytes) => read_zone(alloc, &bytes).err() == Some(ZoneFault::BadZone),
        Err(_) => false,
    }
}

#[test]
fn bad_zone_files_are_refused(rt: HostRuntime) {
    for footer in BAD_FOOTERS {
        assert_holds(&rt, is_bad(rt.alloc(), footer), *footer);
    }
}
