//! The merged events of all tracks.

ghost use Rattle.std.specs.Prelude.{◌≡◌, ◌^◌, ◌≤◌, unsigned_abs, IfOk};
ghost use Rattle.event_list.specs.Events.{AreShort, merged_of};

use crate::rank::in_order;
use crate::turning::{add_followed_events, add_track_events};
use curve_law::{Events, Tracks};
use std::alloc::{AllocError, Global};

/// Returns the events in the cells of all `tracks` (consecutive minutes, each cell with one event or
/// none), sorted by minute, then by kind, then by level. The first cell of each track begins at the
/// minute `begin`, counted from 1970-01-01T00:00Z, from -10^12 to 10^12, and the cells of each track
/// have at most 6,000,000 minutes together.
///
/// # Errors
/// [`AllocError`] if memory runs out.
pub fn merged(alloc: Global, tracks: &Tracks, begin: i64) -> Result<Events, AllocError>
    requires count_bound { AreShort tracks.now }
    requires begin { unsigned_abs begin ≤ 10 ^ 12 }
    ensures { IfOk result (λ events. events ≡ merged_of begin tracks.now) }
{
    let mut events = Vec::new(alloc);
    add_track_events(&mut events, &tracks.turn, begin)?;
    add_followed_events(&mut events, &tracks.slack, begin)?;
    add_followed_events(&mut events, &tracks.mark, begin)?;
    Ok(Events::from_vec(in_order(events)))
}
