//! Listings as lines.

ghost use Rattle.std.specs.Prelude.{◌≡◌, ◌++◌, All, IfOk, OnOk, codes};
ghost use Rattle.std.specs.List.{flat_map};
ghost use Rattle.event_text.specs.Lines.{IsListed, event_line_in};
ghost use Rattle.listing.specs.Listings.{row_line_in, plain_events_of, plain_heights_of};
ghost use Rattle.zone_time.specs.Zones.{IsZone, InZoneYears};

use crate::row::Row;
use crate::rows::Rows;
use arrayvec::ArrayString;
use curve_law::{Event, Events};
use decimal_text::{Bytes, Text};
use event_text::{event_line, height_line};
use harmonics_book::Units;
use std::alloc::{AllocError, Global};
use zone_time::{Zone, ZoneClock};

/// Returns a line with the station's `name`, and a line for each event with its local time in `zone`,
/// such as `2000-01-10 06:00 UTC      -1.00 feet  Low Tide`.
///
/// Each event has a name in `units` ([`word`](event_text::word)) and a level in millionths of `units`.
/// Minutes are counted from 1970-01-01T00:00Z and are in the years 2 to 9300 or on the day before them.
///
/// # Errors
/// [`AllocError`] if memory runs out.
///
/// # Examples
/// ```
/// let lines = plain_events(alloc, name, units, events, &Zone::Utc)?;
/// assert_eq!(rt; lines.as_slice(), DAY.as_bytes());
/// ```
pub fn plain_events(
    alloc: Global,
    name: &Text,
    units: Units,
    events: &Events,
    zone: &Zone,
) -> Result<Bytes, AllocError>
    requires zone { IsZone zone.now }
    requires listed { All (IsListed units) events.now }
    ensures { IfOk result (λ text. text ≡ plain_events_of name.now units events.now zone.now) }
{
    let mut text = Vec::new(alloc);
    push_plain_events(&mut text, name, units, events, zone)?;
    Ok(Bytes::from_vec(text))
}

/// Appends to `text` a line with the station's `name`, and a line for each event with its local time in
/// `zone`, such as `2000-01-10 06:00 UTC      -1.00 feet  Low Tide`.
///
/// Each event has a name in `units` ([`word`](event_text::word)) and a level in millionths of `units`.
/// Minutes are counted from 1970-01-01T00:00Z and are in the years 2 to 9300 or on the day before them.
///
/// # Errors
/// [`AllocError`] if memory runs out; then it isn't specified what was appended.
#[tactic(auto, unfolding(crate::specs::Listings::plain_events_of))]
pub fn push_plain_events(
    text: &mut Vec<u8>,
    name: &Text,
    units: Units,
    events: &Events,
    zone: &Zone,
) -> Result<(), AllocError>
    requires zone { IsZone zone.now }
    requires listed { All (IsListed units) events.now }
    ensures { OnOk result (text.new.items ≡ text.old.items ++ plain_events_of name.now units events.now zone.now) }
{
    text.extend_from_slice(name.as_str().as_bytes())?;
    text.push(b'\n')?;
    push_events(text, units, events.as_slice(), &zone.clock())
}

/// Returns a line with the station's `name`, and a line for each of `rows` with the local time in
/// `zone` and the level, such as `2000-01-10 03:00 UTC       1.00 feet`.
///
/// Levels are in millionths of `units`. Minutes are counted from 1970-01-01T00:00Z and are in the years
/// 2 to 9300 or on the day before them.
///
/// # Errors
/// [`AllocError`] if memory runs out.
#[tactic(auto, unfolding(crate::specs::Listings::plain_heights_of))]
pub fn plain_heights(
    alloc: Global,
    name: &Text,
    units: Units,
    rows: &Rows,
    zone: &Zone,
) -> Result<Bytes, AllocError>
    requires zone { IsZone zone.now }
    requires listed { All (λ row. InZoneYears row.minute) rows.now }
    ensures { IfOk result (λ text. text ≡ plain_heights_of name.now units rows.now zone.now) }
{
    let clock = zone.clock();
    let mut text = name_line(alloc, name)?;
    for row in rows.as_slice() {
        push_row(&mut text, units, row, &clock)?;
    }
    Ok(Bytes::from_vec(text))
}

/// Returns the first line of a listing: the station's `name` and an LF.
pub(crate) fn name_line(alloc: Global, name: &Text) -> Result<Vec<u8>, AllocError>
    ensures { IfOk result (λ text. text.items ≡ name.now ++ codes "\n") }
{
    let mut text = Vec::from_slice(alloc, name.as_str().as_bytes())?;
    text.push(b'\n')?;
    Ok(text)
}

/// Appends a line for each event.
pub(crate) fn push_events(
    text: &mut Vec<u8>,
    units: Units,
    events: &[Event],
    zone: &ZoneClock<'_>,
) -> Result<(), AllocError>
    requires listed { All (IsListed units) events.now }
    ensures { OnOk result (text.new.items ≡ text.old.items ++ flat_map (event_line_in zone.now units) events.now) }
{
    for event in events {
        push_event(text, units, event, zone)?;
    }
    Ok(())
}

/// Appends the line of `event` in the local time of `zone`.
fn push_event(
    text: &mut Vec<u8>,
    units: Units,
    event: &Event,
    zone: &ZoneClock<'_>,
) -> Result<(), AllocError>
    requires listed { IsListed units event.now }
    ensures { OnOk result (text.new.items ≡ text.old.items ++ event_line_in zone.now units event.now) }
{
    let local = zone.local(event.minute);
    let mut line = ArrayString::new();
    event_line(&local, event, units, &mut line);
    text.extend_from_slice(line.as_str().as_bytes())
}

/// Appends the line of the level `row` in the local time of `zone`.
fn push_row(
    text: &mut Vec<u8>,
    units: Units,
    row: &Row,
    zone: &ZoneClock<'_>,
) -> Result<(), AllocError>
    requires minute { InZoneYears row.now.minute }
    ensures { OnOk result (text.new.items ≡ text.old.items ++ row_line_in zone.now units row.now) }
{
    let local = zone.local(row.minute);
    let mut line = ArrayString::new();
    height_line(&local, row.level, units, &mut line);
    line.push('\n');
    text.extend_from_slice(line.as_str().as_bytes())
}
