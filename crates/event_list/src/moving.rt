//! An event of the reference, moved and scaled.

ghost use Rattle.std.specs.Prelude.{◌≡◌, ◌^◌, ◌≤◌, ◌+ℤ◌, unsigned_abs};
ghost use Rattle.station_table.specs.Offsets.{IsOffset, IsAdd};
ghost use Rattle.event_list.specs.Shifts.{HasOffsets, IsMovable, later_by, offset_of, moved};

use crate::scaling::scaled;
use curve_law::{Event, Kind};
use station_table::{Basis, Offset};

/// Returns the station's event for `event`, an event of its reference station, by the offset that
/// `basis` (the reference and the offsets from it) has for the event's kind. The offset's minutes
/// are added to the minute. The level is multiplied by the offset's factor and rounded to whole
/// millionths of the unit, and then the offset's height is added. The offsets are in their ranges,
/// and the event's minute is at most 10^12 and its level at most 11,000,000,000 in size.
pub fn moved(basis: &Basis, event: &Event) -> Event
    requires offsets { HasOffsets basis.now }
    requires event { IsMovable event.now }
    ensures { result ≡ moved basis.now event.now }
{
    let offset = offset_of(basis, event.kind);
    Event {
        minute: later(event.minute, offset.add),
        kind: event.kind,
        level: scaled(&offset, event.level),
    }
}

/// Returns the offset that `basis` has for events of this kind.
fn offset_of(basis: &Basis, kind: Kind) -> Offset
    requires { HasOffsets basis.now }
    ensures exact { result ≡ offset_of basis.now kind }
    ensures range { IsOffset result }
{
    match (kind, basis.slack) {
        (Kind::Low, _) => basis.low,
        (Kind::FloodBegins, Some(slack)) => later_by(slack.flood_add),
        (Kind::EbbBegins, Some(slack)) => later_by(slack.ebb_add),
        _ => basis.high,
    }
}

/// Returns the minute `add` minutes after `minute`, or before it if `add` is negative.
fn later_by(add: i32) -> Offset
    requires { IsAdd add }
    ensures exact { result ≡ later_by add }
    ensures range { IsOffset result }
{
    Offset {
        add,
        ..Offset::USUAL
    }
}

fn later(minute: i64, add: i32) -> i64
    requires minute { unsigned_abs minute ≤ 10 ^ 12 }
    requires add { IsAdd add }
    ensures { result ≡ minute +ℤ add }
{
    minute + i64::from(add)
}
