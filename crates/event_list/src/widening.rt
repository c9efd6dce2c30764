//! The span of the reference that determines a station's events.

ghost use Rattle.std.specs.Prelude.{◌≡◌, ◌+◌, ◌^◌, ◌≤◌, ◌-ℤ◌, ◌≤ℤ◌, unsigned_abs};
ghost use Rattle.event_list.specs.Shifts.{HasOffsets, greatest_add, least_add, widened_of};
ghost use Rattle.event_list.specs.Events.{span_minutes};

use crate::span::Span;
use station_table::Basis;

/// Returns the span of the reference station that determines all events of a station from `begin`
/// up to but not including `end`. It begins at `begin` minus the greatest number of minutes that an
/// offset of `basis` adds to an event's time, and ends at `end` minus the least. `begin` and `end`
/// are minutes since 1970-01-01T00:00Z, from -10^12 to 10^12, and `begin` isn't after `end`. If the
/// offsets are in their ranges, each end is moved by at most 1,440 minutes. Nothing is allocated.
pub fn widened(basis: &Basis, begin: i64, end: i64) -> Span
    requires forward { begin ≤ℤ end }
    requires begin { unsigned_abs begin ≤ 10 ^ 12 }
    requires end { unsigned_abs end ≤ 10 ^ 12 }
    ensures exact { result ≡ widened_of basis.now begin end }
    ensures forward { result.begin ≤ℤ result.end }
    ensures begin_in_range { HasOffsets basis.now → unsigned_abs (result.begin -ℤ begin) ≤ 1440 }
    ensures end_in_range { HasOffsets basis.now → unsigned_abs (result.end -ℤ end) ≤ 1440 }
    ensures count_bound { HasOffsets basis.now → span_minutes result ≤ unsigned_abs (end -ℤ begin) + 2880 }
{
    Span {
        begin: begin - i64::from(greatest_add(basis)),
        end: end - i64::from(least_add(basis)),
    }
}

/// Returns the greatest number of minutes that an offset of `basis` adds to an event's time.
fn greatest_add(basis: &Basis) -> i32
    ensures exact { result ≡ greatest_add basis.now }
    ensures high { basis.now.high.add ≤ℤ result }
{
    let most = basis.high.add.max(basis.low.add);
    match basis.slack {
        Some(slack) => most.max(slack.flood_add).max(slack.ebb_add),
        None => most,
    }
}

/// Returns the least number of minutes that an offset of `basis` adds to an event's time.
fn least_add(basis: &Basis) -> i32
    ensures exact { result ≡ least_add basis.now }
    ensures high { result ≤ℤ basis.now.high.add }
{
    let least = basis.high.add.min(basis.low.add);
    match basis.slack {
        Some(slack) => least.min(slack.flood_add).min(slack.ebb_add),
        None => least,
    }
}
