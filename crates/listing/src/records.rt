//! Listings as comma-separated values.

ghost use Rattle.std.specs.Prelude.{◌≡◌, [], ◌∷◌, ◌++◌, All, IfOk, OnOk, map};
ghost use Rattle.std.specs.List.{flat_map};
ghost use Rattle.csv.specs.Writing.{row_text};
ghost use Rattle.event_text.specs.Lines.{IsListed};
ghost use Rattle.listing.specs.Records.{
  millionths_text,
  record_of,
  time_in,
  event_fields,
  event_header,
  row_fields,
  row_header,
  csv_events_of,
  csv_heights_of,
};
ghost use Rattle.listing.specs.Workings.Writers.{IsAtRecord, written};
ghost use Rattle.zone_time.specs.Moments.{moment_text};
ghost use Rattle.zone_time.specs.Zones.{IsZone, InZoneYears};

use crate::row::Row;
use crate::rows::Rows;
use arrayvec::ArrayString;
use csv::{Writer, WriterBuilder};
use curve_law::{Event, Events};
use decimal_text::{Bytes, Text, write};
use event_text::{unit_text, word};
use harmonics_book::Units;
use std::alloc::{AllocError, Global};
use zone_time::{Zone, ZoneClock, write_moment, write_time};

/// Returns the header `station,moment,local,event,level,units` and a record of comma-separated values
/// for each event. The field `moment` is in universal time, such as `2000-01-10T11:59Z`; `local` is in
/// the local time of `zone`, such as `2000-01-10 11:59`; `level` is in `units`, with six decimals.
///
/// Each event has a name in `units` ([`word`](event_text::word)) and a level in millionths of `units`.
/// Minutes are counted from 1970-01-01T00:00Z and are in the years 2 to 9300 or on the day before them.
///
/// # Errors
/// [`AllocError`] if memory runs out.
#[tactic(auto, unfolding(crate::specs::Records::csv_events_of))]
pub fn csv_events(
    alloc: Global,
    name: &Text,
    units: Units,
    events: &Events,
    zone: &Zone,
) -> Result<Bytes, AllocError>
    requires zone { IsZone zone.now }
    requires listed { All (IsListed units) events.now }
    ensures { IfOk result (λ text. text ≡ csv_events_of name.now units events.now zone.now) }
{
    let clock = zone.clock();
    let mut records = new_records(alloc);
    push_event_header(&mut records)?;
    for event in events.as_slice() {
        push_event(&mut records, name, units, event, &clock)?;
    }
    bytes_of(records)
}

/// Returns the header `station,moment,local,level,units` and a record of comma-separated values for
/// each of `rows`. The field `moment` is in universal time, such as `2000-01-10T11:59Z`; `local` is in
/// the local time of `zone`, such as `2000-01-10 11:59`; `level` is in `units`, with six decimals.
///
/// In `rows` levels are in millionths of `units`. Minutes are counted from 1970-01-01T00:00Z and are in
/// the years 2 to 9300 or on the day before them.
///
/// # Errors
/// [`AllocError`] if memory runs out.
#[tactic(auto, unfolding(crate::specs::Records::csv_heights_of))]
pub fn csv_heights(
    alloc: Global,
    name: &Text,
    units: Units,
    rows: &Rows,
    zone: &Zone,
) -> Result<Bytes, AllocError>
    requires zone { IsZone zone.now }
    requires listed { All (λ row. InZoneYears row.minute) rows.now }
    ensures { IfOk result (λ text. text ≡ csv_heights_of name.now units rows.now zone.now) }
{
    let clock = zone.clock();
    let mut records = new_records(alloc);
    push_row_header(&mut records)?;
    for row in rows.as_slice() {
        push_row(&mut records, name, units, row, &clock)?;
    }
    bytes_of(records)
}

/// Returns a writer of records that has written nothing.
fn new_records(alloc: Global) -> Writer<Vec<u8>>
    ensures start { IsAtRecord result }
    ensures bytes { written result ≡ [] }
{
    WriterBuilder::new().from_writer(Vec::new(alloc))
}

/// Returns the bytes that `records` has written.
fn bytes_of(records: Writer<Vec<u8>>) -> Result<Bytes, AllocError>
    ensures { IfOk result (λ text. text ≡ written records) }
{
    match records.into_inner() {
        Ok(bytes) => Ok(Bytes::from_vec(bytes)),
        Err(_) => Err(AllocError),
    }
}

/// Appends a record of `fields`, quoted if they need it.
fn push_record(records: &mut Writer<Vec<u8>>, fields: &[&[u8]]) -> Result<(), AllocError>
    requires start { IsAtRecord records.old }
    ensures end { OnOk result (IsAtRecord records.new) }
    ensures bytes { OnOk result (written records.new ≡ written records.old ++ record_of (map (λ field. field.now) fields.now)) }
{
    match records.write_fields(fields) {
        Ok(()) => Ok(()),
        Err(_) => Err(AllocError),
    }
}

/// Appends the header of events, `station,moment,local,event,level,units`.
fn push_event_header(records: &mut Writer<Vec<u8>>) -> Result<(), AllocError>
    requires start { IsAtRecord records.old }
    ensures end { OnOk result (IsAtRecord records.new) }
    ensures bytes { OnOk result (written records.new ≡ written records.old ++ record_of event_header) }
{
    push_record(
        records,
        &[
            b"station".as_slice(),
            b"moment".as_slice(),
            b"local".as_slice(),
            b"event".as_slice(),
            b"level".as_slice(),
            b"units".as_slice(),
        ],
    )
}

/// Appends the header of levels, `station,moment,local,level,units`.
fn push_row_header(records: &mut Writer<Vec<u8>>) -> Result<(), AllocError>
    requires start { IsAtRecord records.old }
    ensures end { OnOk result (IsAtRecord records.new) }
    ensures bytes { OnOk result (written records.new ≡ written records.old ++ record_of row_header) }
{
    push_record(
        records,
        &[
            b"station".as_slice(),
            b"moment".as_slice(),
            b"local".as_slice(),
            b"level".as_slice(),
            b"units".as_slice(),
        ],
    )
}

/// The fields that records of events and of levels have in common, as text.
#[derive(Drop)]
struct Texts {
    moment: ArrayString<20>,
    local: ArrayString<16>,
    level: ArrayString<24>,
}

/// Returns the fields of a `level`, in millionths of the unit, at `minute`, counted from
/// 1970-01-01T00:00Z.
fn texts_of(minute: i64, level: i64, zone: &ZoneClock<'_>) -> Texts
    requires minute { InZoneYears minute }
    ensures moment { result.moment.bytes ≡ moment_text minute }
    ensures local { result.local.bytes ≡ time_in zone.now minute }
    ensures level { result.level.bytes ≡ millionths_text level }
{
    let mut texts = Texts {
        moment: ArrayString::new(),
        local: ArrayString::new(),
        level: ArrayString::new(),
    };
    write_moment(minute, &mut texts.moment);
    write_time(zone.local(minute).minute, &mut texts.local);
    write(level, 6, &mut texts.level);
    texts
}

/// Appends the record of `event`.
fn push_event(
    records: &mut Writer<Vec<u8>>,
    name: &Text,
    units: Units,
    event: &Event,
    zone: &ZoneClock<'_>,
) -> Result<(), AllocError>
    requires start { IsAtRecord records.old }
    requires listed { IsListed units event.now }
    ensures end { OnOk result (IsAtRecord records.new) }
    ensures bytes { OnOk result (written records.new ≡ written records.old ++ record_of (event_fields name.now units zone.now event.now)) }
{
    let texts = texts_of(event.minute, event.level, zone);
    let word = word(units, event.kind, event.level);
    push_event_texts(
        records,
        name.as_str(),
        &texts,
        word.text(),
        unit_text(units),
    )
}

/// Appends the record of an event from its fields.
fn push_event_texts<'a>(
    records: &mut Writer<Vec<u8>>,
    name: &'a str,
    texts: &'a Texts,
    word: &'a str,
    units: &'a str,
) -> Result<(), AllocError>
    requires start { IsAtRecord records.old }
    ensures end { OnOk result (IsAtRecord records.new) }
    ensures bytes { OnOk result (written records.new ≡ written records.old
        ++ record_of (name.now ∷ texts.now.moment.bytes ∷ texts.now.local.bytes ∷ word.now ∷ texts.now.level.bytes ∷ units.now ∷ [])) }
{
    push_record(
        records,
        &[
            name.as_bytes(),
            texts.moment.as_str().as_bytes(),
            texts.local.as_str().as_bytes(),
            word.as_bytes(),
            texts.level.as_str().as_bytes(),
            units.as_bytes(),
        ],
    )
}

/// Appends the record of the level `row`.
fn push_row(
    records: &mut Writer<Vec<u8>>,
    name: &Text,
    units: Units,
    row: &Row,
    zone: &ZoneClock<'_>,
) -> Result<(), AllocError>
    requires start { IsAtRecord records.old }
    requires minute { InZoneYears row.now.minute }
    ensures end { OnOk result (IsAtRecord records.new) }
    ensures bytes { OnOk result (written records.new ≡ written records.old ++ record_of (row_fields name.now units zone.now row.now)) }
{
    let texts = texts_of(row.minute, row.level, zone);
    push_row_texts(records, name.as_str(), &texts, unit_text(units))
}

/// Appends the record of a level from its fields.
fn push_row_texts<'a>(
    records: &mut Writer<Vec<u8>>,
    name: &'a str,
    texts: &'a Texts,
    units: &'a str,
) -> Result<(), AllocError>
    requires start { IsAtRecord records.old }
    ensures end { OnOk result (IsAtRecord records.new) }
    ensures bytes { OnOk result (written records.new ≡ written records.old
        ++ record_of (name.now ∷ texts.now.moment.bytes ∷ texts.now.local.bytes ∷ texts.now.level.bytes ∷ units.now ∷ [])) }
{
    push_record(
        records,
        &[
            name.as_bytes(),
            texts.moment.as_str().as_bytes(),
            texts.local.as_str().as_bytes(),
            texts.level.as_str().as_bytes(),
            units.as_bytes(),
        ],
    )
}
