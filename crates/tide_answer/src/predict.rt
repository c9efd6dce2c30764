//! The answer of the command `predict`: the events of a station over a span.

ghost use Rattle.std.specs.Prelude.{◌≡◌, IfOk};
ghost use Rattle.station_span.specs.declared.purpose.Purpose.{Purpose};
ghost use Rattle.tide_answer.specs.Workings.Streaming.{listing_for};

use crate::text::Answer;
use decimal_text::Text;
use listing::events_text;
use question::Layout;
use station_span::{FoundStation, find_events};
use std::alloc::{AllocError, Global};
use zone_time::ZoneClock;

/// Returns the answer with the events of the station `found_station`, called `name`, over the span of
/// its request, in `layout` and in the local time of `zone`.
pub fn listing_answer(
    alloc: Global,
    found_station: &FoundStation,
    name: &Text,
    layout: Layout,
    zone: &ZoneClock<'_>,
) -> Result<Answer, AllocError>
    requires { found_station.now.purpose ≡ Purpose.Events }
    ensures { IfOk result (λ answer. answer ≡ listing_for found_station.now name.now layout zone.now) }
{
    let listed = find_events(alloc, found_station)?;
    let text = events_text(
        alloc,
        layout,
        name,
        listed.units,
        &listed.events,
        zone.zone(),
    )?;
    Ok(Answer {
        text,
        rejected: false,
        cells: listed.cells,
    })
}
