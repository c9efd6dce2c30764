//! Listings in the layout of a question.

ghost use Rattle.std.specs.Prelude.{◌≡◌, All, IfOk};
ghost use Rattle.event_text.specs.Lines.{IsListed};
ghost use Rattle.listing.specs.ByLayout.{events_text, heights_text};
ghost use Rattle.zone_time.specs.Zones.{IsZone, InZoneYears};

use crate::plain::{plain_events, plain_heights};
use crate::records::{csv_events, csv_heights};
use crate::rows::Rows;
use curve_law::Events;
use decimal_text::{Bytes, Text};
use harmonics_book::Units;
use question::Layout;
use std::alloc::{AllocError, Global};
use zone_time::Zone;

/// Returns the listing of `events` of the station `name`, with local times in `zone`: for
/// [`Layout::Plain`] the name and a line for each event, for [`Layout::Csv`] a header and a record of
/// comma-separated values for each.
///
/// Each event has a name in `units` ([`word`](event_text::word)) and a level in millionths of `units`.
/// Minutes are counted from 1970-01-01T00:00Z and are in the years 2 to 9300 or on the day before them.
///
/// # Errors
/// [`AllocError`] if memory runs out.
pub fn events_text(
    alloc: Global,
    layout: Layout,
    name: &Text,
    units: Units,
    events: &Events,
    zone: &Zone,
) -> Result<Bytes, AllocError>
    requires zone { IsZone zone.now }
    requires listed { All (IsListed units) events.now }
    ensures { IfOk result (λ text. text ≡ events_text layout name.now units events.now zone.now) }
{
    match layout {
        Layout::Plain => plain_events(alloc, name, units, events, zone),
        Layout::Csv => csv_events(alloc, name, units, events, zone),
    }
}

/// Returns the listing of the levels `rows` of the station `name`, with local times in `zone`: for
/// [`Layout::Plain`] the name and a line for each level, for [`Layout::Csv`] a header and a record of
/// comma-separated values for each.
///
/// Levels are in millionths of `units`. Minutes are counted from 1970-01-01T00:00Z and are in the years
/// 2 to 9300 or on the day before them.
///
/// # Errors
/// [`AllocError`] if memory runs out.
pub fn heights_text(
    alloc: Global,
    layout: Layout,
    name: &Text,
    units: Units,
    rows: &Rows,
    zone: &Zone,
) -> Result<Bytes, AllocError>
    requires zone { IsZone zone.now }
    requires listed { All (λ row. InZoneYears row.minute) rows.now }
    ensures { IfOk result (λ text. text ≡ heights_text layout name.now units rows.now zone.now) }
{
    match layout {
        Layout::Plain => plain_heights(alloc, name, units, rows, zone),
        Layout::Csv => csv_heights(alloc, name, units, rows, zone),
    }
}
