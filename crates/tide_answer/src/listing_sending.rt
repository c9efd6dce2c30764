//! A listing that is written while its events are found. None of these functions allocates.

ghost use Rattle.std.specs.Prelude.{◌≡◌, ◌+◌, ◌*◌, ◌<◌, ◌≤◌, ◌^◌, length, All, OnOk};
ghost use Rattle.std.specs.List.{flat_map};
ghost use Rattle.event_text.specs.Lines.{IsListed, event_line_in};
ghost use Rattle.listing.specs.Listings.{plain_events_of};
ghost use Rattle.tide_edge.specs.Sending.{Sends};

use crate::name_sending::send_name;
use arrayvec::ArrayString;
use curve_law::Event;
use decimal_text::Text;
use event_list::Merge;
use harmonics_book::Units;
use listing::event_line;
use rate_bound::{MarkCurve, TurnCurve};
use tide_edge::{LineBuffer, Sink, WriteFailed};
use zone_time::ZoneClock;

/// Writes to `out` one line for each remaining event of `merge`, with levels in `units` and times
/// in the local time of `zone`. Returns `sent`, the number of bytes written before, plus the number
/// of bytes written here. Afterwards the searches of `merge` have returned all their cells.
///
/// # Errors
/// [`WriteFailed`] if a write to `out` fails: then `out` has only the first bytes of these lines.
pub fn send_events<'a, S: Sink>(
    out: &mut S,
    sent: u64,
    units: Units,
    zone: &ZoneClock<'_>,
    merge: &mut Merge<TurnCurve<'a>, MarkCurve<'a>>,
) -> Result<u64, WriteFailed>
    requires listed { All (IsListed units) merge.old.remaining }
    requires count_bound { sent + 96 * length merge.old.remaining < 2 ^ 64 }
    ensures sends { Sends (S.state out.old) (S.state out.new) sent (flat_map (event_line_in zone.now units) merge.old.remaining) result }
    ensures cells { OnOk result (merge.new.cells ≡ merge.old.all) }
{
    let mut buffer = LineBuffer::new();
    let mut so_far = sent;
    while let Some(event) = merge.next() {
        let line = line_of(units, &event, zone);
        so_far = buffer.put(out, so_far, line.as_str())?;
    }
    buffer.end(out, so_far)
}

/// Returns the line of `event`.
fn line_of(units: Units, event: &Event, zone: &ZoneClock<'_>) -> ArrayString<96>
    requires listed { IsListed units event.now }
    ensures { result.bytes ≡ event_line_in zone.now units event.now }
{
    let local = zone.local(event.minute);
    let mut line = ArrayString::new();
    event_line(&local, event, units, &mut line);
    line
}

/// Writes to `out` the station's `name`, and one line for each remaining event of `merge`, with
/// levels in `units` and times in the local time of `zone`. Returns the number of bytes written.
/// Afterwards the searches of `merge` have returned all their cells.
///
/// # Errors
/// [`WriteFailed`] if a write to `out` fails: then `out` has only the first bytes of the listing.
#[tactic(auto, unfolding(listing::specs::Listings::plain_events_of))]
pub fn send_listing<'a, S: Sink>(
    out: &mut S,
    name: &Text,
    units: Units,
    zone: &ZoneClock<'_>,
    merge: &mut Merge<TurnCurve<'a>, MarkCurve<'a>>,
) -> Result<u64, WriteFailed>
    requires name { length name.now ≤ 400 }
    requires listed { All (IsListed units) merge.old.remaining }
    requires count_bound { 96 * length merge.old.remaining < 2 ^ 63 }
    ensures sends { Sends (S.state out.old) (S.state out.new) 0 (plain_events_of name.now units merge.old.remaining zone.now) result }
    ensures cells { OnOk result (merge.new.cells ≡ merge.old.all) }
{
    let sent = send_name(out, 0, "", name)?;
    send_events(out, sent, units, zone, merge)
}
