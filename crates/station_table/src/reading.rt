//! Reading a table of offsets from the bytes of a CSV file.

ghost use Rattle.std.specs.Prelude.{◌≡◌, ◌≤◌, ℕ, List, [], length, IfOk};
ghost use Rattle.decimal_text.specs.Expected.{EqualsUnlessNoMemory};
ghost use Rattle.csv.specs.Records.{fields_of};
ghost use Rattle.station_table.specs.Offsets.{IsOffsets};
ghost use Rattle.station_table.specs.Reasons.{is_out_of_memory};
ghost use Rattle.station_table.specs.Table.{at_row, offsets_of, table_of};
ghost use Rattle.station_table.specs.Workings.Records.{HasGiven, HasHeader, ReturnsHeader};
ghost use Rattle.decimal_text.specs.declared.limits.TheConstants.{MOST_BYTES};

use crate::borrowed_offsets::row_of;
use crate::fault::OffsetFault;
use crate::header::{Header, NO_HEADER, header_of};
use crate::offsets::Offsets;
use crate::table::OffsetTable;
use csv::{ByteRecord, ByteRecordsIntoIter, ReaderBuilder};
use std::alloc::Global;

/// Parses `bytes`, at most 400,000,000, as a CSV file of offsets, and returns its table.
///
/// The first record is the header:
/// `name,reference,high_add,low_add,high_times,low_times,high_plus,low_plus`, which may be followed
/// by `,flood_add,ebb_add`. Each later record is a station. Names have 1 to 400 bytes of UTF-8
/// without control bytes of ASCII. Minutes to add are written as `-0:10`, at most 24:00 either way.
/// Factors are decimals from 0.000001 to 100, and heights to add are decimals from -10000 to 10000
/// in the station's unit. An empty field after the two names changes nothing; the two fields of
/// slack water are both empty or both filled.
///
/// # Errors
/// - [`OffsetFault::At`]: when a row breaks a rule, with the first such row, counted from the
///   header, which is row 1, and the first reason why it does.
/// - [`OffsetFault::NoMemory`]: when memory runs out.
///
/// # Examples
/// ```
/// let text = b"name,reference,high_add,low_add,high_times,low_times,high_plus,low_plus\n\
///     Dock,Pier,0:30,-0:10,1.1,0.9,0.1,0\n";
/// let table = read_offsets(rt.alloc(), text)?;
/// assert_eq!(rt; table.as_slice().len(), 1);
/// ```
pub fn read_offsets(alloc: Global, bytes: &[u8]) -> Result<OffsetTable, OffsetFault>
    requires { length bytes.now ≤ MOST_BYTES }
    ensures { EqualsUnlessNoMemory is_out_of_memory (table_of bytes.now) result }
{
    let mut records = records_of(alloc, bytes);
    let table = read_table(alloc, &mut records);
    drop(records);
    table
}

/// Reads the header and the rows after it, and returns the table.
fn read_table(
    alloc: Global,
    records: &mut ByteRecordsIntoIter<&[u8]>,
) -> Result<OffsetTable, OffsetFault>
    requires { (text : List ℕ) × HasGiven text [] records.old × (length text ≤ MOST_BYTES) }
    ensures { (text : List ℕ) → HasGiven text [] records.old → EqualsUnlessNoMemory is_out_of_memory (table_of text) result }
{
    let header = read_header(records)?;
    read_rows(alloc, records, header)
}

/// Returns an iterator over the records of the CSV text `bytes`, before its first record. A record
/// may have any number of fields.
fn records_of(alloc: Global, bytes: &[u8]) -> ByteRecordsIntoIter<&[u8]>
    ensures { HasGiven bytes.now [] result }
{
    ReaderBuilder::new()
        .has_headers(false)
        .flexible(true)
        .from_reader(alloc, bytes)
        .into_byte_records()
}

/// Returns the header in the next record, the first of the file; the fault is a bad header in row
/// 1, or that memory ran out.
fn read_header(records: &mut ByteRecordsIntoIter<&[u8]>) -> Result<Header, OffsetFault>
    ensures { (text : List ℕ) → HasGiven text [] records.old → ReturnsHeader text records.new result }
{
    match records.next() {
        Some(Ok(names)) => header_of(&names),
        Some(Err(_)) => Err(OffsetFault::NoMemory),
        None => Err(NO_HEADER),
    }
}

/// Returns the table of the remaining records, the rows after the header.
fn read_rows(
    alloc: Global,
    records: &mut ByteRecordsIntoIter<&[u8]>,
    header: Header,
) -> Result<OffsetTable, OffsetFault>
    requires { (text : List ℕ) × HasHeader text header records.old × (length text ≤ MOST_BYTES) }
    ensures { (text : List ℕ) → HasHeader text header records.old → EqualsUnlessNoMemory is_out_of_memory (table_of text) result }
{
    let mut table = OffsetTable::new(alloc);
    let mut row = 2;
    for record in records {
        match record {
            Ok(record) => table.push(offsets_at(alloc, row, &record, header)?)?,
            Err(_) => return Err(OffsetFault::NoMemory),
        }
        row += 1;
    }
    Ok(table)
}

/// Returns the station in `fields`, the row with the number `row` (the header is row 1). The fault
/// has this number, or is that memory ran out.
fn offsets_at(
    alloc: Global,
    row: u32,
    fields: &ByteRecord,
    header: Header,
) -> Result<Offsets, OffsetFault>
    ensures exact { EqualsUnlessNoMemory is_out_of_memory (at_row row (offsets_of header (fields_of fields.now))) result }
    ensures valid { IfOk result IsOffsets }
{
    match row_of(fields, header) {
        Ok(offsets) => Ok(offsets.to_offsets(alloc)?),
        Err(why) => Err(OffsetFault::At { row, why }),
    }
}
