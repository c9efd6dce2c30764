//! The order of events.

ghost use Rattle.std.specs.Prelude.{◌≡◌};
ghost use Rattle.curve_law.specs.Verdicts.{rank_of_kind};
ghost use Rattle.event_list.specs.Order.{comes_before, ordered};

use curve_law::{Event, Kind};

/// Returns the key by which events are sorted: the minute, the rank of the kind, and the level.
fn rank(event: &Event) -> (i64, u8, i64)
    ensures { result ≡ record { 0 = event.now.minute; 1 = rank_of_kind event.now.kind; 2 = event.now.level } }
{
    (event.minute, kind_rank(event.kind), event.level)
}

/// Returns the rank of a kind among the events of one minute: its position among the variants.
fn kind_rank(kind: Kind) -> u8
    ensures { result ≡ rank_of_kind kind }
{
    kind as u8
}

/// Returns true if `first` is listed before `second`: at an earlier minute, or at the same minute with
/// a kind that is earlier in the order of `Kind`, or with the same minute and kind at a lower level.
pub fn comes_before(first: &Event, second: &Event) -> bool
    ensures { result ≡ comes_before first.now second.now }
{
    rank(first) < rank(second)
}

/// Returns `events` in listing order: sorted by minute, then by kind, then by level.
pub fn in_order(events: Vec<Event>) -> Vec<Event>
    ensures { result.items ≡ ordered events.items }
{
    let mut events = events;
    events.sort_unstable_by_key(|event| rank(event));
    events
}
