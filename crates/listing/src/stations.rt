//! The list of stations.

ghost use Rattle.std.specs.Prelude.{◌≡◌, ◌++◌, IfOk, OnOk};
ghost use Rattle.std.specs.List.{flat_map};
ghost use Rattle.listing.specs.StationLists.{unit_in, unit_or_dash, reference_line, subordinate_line, stations_text_of};
ghost use Rattle.listing.specs.Workings.Units.{AreUnitsOf};

use decimal_text::{Bytes, Text};
use event_text::unit_text;
use harmonics_book::{Book, Station, Units};
use station_table::{OffsetTable, Offsets};
use std::alloc::{AllocError, Global};
use std::collections::BTreeMap;

/// Returns a line such as `Ref feet Pier` for each station of `book`, then a line such as
/// `Sub feet Dock (Pier)` for each row of `table`, which names a subordinate station and its reference
/// station. The unit in a row's line is the unit of the first station of `book` with the reference's
/// name, or `-` if `book` has no such station.
///
/// # Errors
/// [`AllocError`] if memory runs out.
#[tactic(auto, unfolding(crate::specs::StationLists::stations_text_of))]
pub fn stations_text(alloc: Global, book: &Book, table: &OffsetTable) -> Result<Bytes, AllocError>
    ensures { IfOk result (λ text. text ≡ stations_text_of book.now table.now) }
{
    let stations = book.stations.as_slice();
    let mut text = Vec::new(alloc);
    push_references(&mut text, stations)?;
    let units = units_by_name(alloc, stations)?;
    push_subordinates(&mut text, stations, &units, table.as_slice())?;
    Ok(Bytes::from_vec(text))
}

/// Appends a line for each reference station.
fn push_references(text: &mut Vec<u8>, stations: &[Station]) -> Result<(), AllocError>
    ensures { OnOk result (text.new.items ≡ text.old.items ++ flat_map reference_line stations.now) }
{
    for station in stations {
        push_reference(text, station)?;
    }
    Ok(())
}

/// Appends the line of the reference station `station`.
fn push_reference(text: &mut Vec<u8>, station: &Station) -> Result<(), AllocError>
    ensures { OnOk result (text.new.items ≡ text.old.items ++ reference_line station.now) }
{
    text.extend_from_slice(b"Ref ")?;
    text.extend_from_slice(unit_text(station.units).as_bytes())?;
    text.extend_from_slice(b" ")?;
    text.extend_from_slice(station.name.as_str().as_bytes())?;
    text.extend_from_slice(b"\n")
}

/// Returns the units of the stations by name: for each name the unit of the first station with it.
fn units_by_name(alloc: Global, stations: &[Station]) -> Result<BTreeMap<&str, Units>, AllocError>
    ensures { IfOk result (AreUnitsOf stations.now) }
{
    let mut units = BTreeMap::new(alloc);
    for station in stations {
        units.entry(station.name.as_str())?.or_insert(station.units);
    }
    Ok(units)
}

/// Appends a line for each subordinate station.
fn push_subordinates(
    text: &mut Vec<u8>,
    stations: &[Station],
    units: &BTreeMap<&str, Units>,
    rows: &[Offsets],
) -> Result<(), AllocError>
    requires units { AreUnitsOf stations.now units.now }
    ensures { OnOk result (text.new.items ≡ text.old.items ++ flat_map (subordinate_line stations.now) rows.now) }
{
    for row in rows {
        push_subordinate(text, stations, units, row)?;
    }
    Ok(())
}

/// Appends the line of the subordinate station `row`.
fn push_subordinate(
    text: &mut Vec<u8>,
    stations: &[Station],
    units: &BTreeMap<&str, Units>,
    row: &Offsets,
) -> Result<(), AllocError>
    requires units { AreUnitsOf stations.now units.now }
    ensures { OnOk result (text.new.items ≡ text.old.items ++ subordinate_line stations.now row.now) }
{
    text.extend_from_slice(b"Sub ")?;
    text.extend_from_slice(unit_or_dash(stations, units, &row.reference).as_bytes())?;
    text.extend_from_slice(b" ")?;
    text.extend_from_slice(row.name.as_str().as_bytes())?;
    text.extend_from_slice(b" (")?;
    text.extend_from_slice(row.reference.as_str().as_bytes())?;
    text.extend_from_slice(b")\n")
}

/// Returns the unit of the reference station `name`, or `-` if no station has this name.
fn unit_or_dash(stations: &[Station], units: &BTreeMap<&str, Units>, name: &Text) -> &'static str
    requires units { AreUnitsOf stations.now units.now }
    ensures { result.now ≡ unit_or_dash (unit_in stations.now name.now) }
{
    match units.get(name.as_str()) {
        Some(units) => unit_text(*units),
        None => "-",
    }
}
