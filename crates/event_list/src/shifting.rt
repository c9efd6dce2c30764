//! The events of a station, made from the events of its reference.

ghost use Rattle.std.specs.Prelude.{◌≡◌, All, IfOk};
ghost use Rattle.event_list.specs.Shifts.{HasOffsets, IsMovable, is_within, shifted_of};

use crate::moving::moved;
use crate::rank::in_order;
use curve_law::{Event, Events};
use station_table::Basis;
use std::alloc::{AllocError, Global};

/// Returns the station's events from `begin` up to but not including `end`, sorted by minute, then
/// by kind, then by level: each of `events`, events of its reference station, is moved and scaled
/// by the offset that `basis` (the reference and the offsets from it) has for its kind, and is left
/// out if the moved minute isn't in this span. The minutes of `events` are from -10^12 to 10^12,
/// and their levels at most 11,000,000,000 millionths of the unit in size; the offsets are in their
/// ranges.
///
/// # Errors
/// [`AllocError`] if memory runs out.
pub fn shifted(
    alloc: Global,
    events: &Events,
    basis: &Basis,
    begin: i64,
    end: i64,
) -> Result<Events, AllocError>
    requires events { All IsMovable events.now }
    requires offsets { HasOffsets basis.now }
    ensures { IfOk result (λ list. list ≡ shifted_of basis.now begin end events.now) }
{
    let mut kept = Vec::new(alloc);
    for event in events.as_slice() {
        let event = moved(basis, event);
        if is_within(&event, begin, end) {
            kept.push(event)?;
        }
    }
    Ok(Events::from_vec(in_order(kept)))
}

/// Returns true if `event` is at a minute from `begin` up to but not including `end`.
fn is_within(event: &Event, begin: i64, end: i64) -> bool
    ensures { result ≡ is_within begin end event.now }
{
    begin <= event.minute && event.minute < end
}
