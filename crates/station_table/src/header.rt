//! The header of a table of offsets: the row of column names.

ghost use Rattle.std.specs.Prelude.{◌≡◌, map, length, slice_index_or, [], List, ℕ};
ghost use Rattle.std.specs.Cmp.Lexicographic.{pointwise};
ghost use Rattle.std.specs.Str.{bytes_eq};
ghost use Rattle.csv.specs.Records.{fields_of};
ghost use Rattle.station_table.specs.Table.{columns_of, has_columns, header_of, field_of};

use crate::fault::{OffsetFault, OffsetWhy};
use csv::ByteRecord;

/// The header of a table of offsets: it has the eight columns for high and low waters, or these and
/// two more, with minutes for slack waters.
#[derive(Clone, Copy)]
pub enum Header {
    /// The eight columns of a table with only offsets of high and low waters.
    Plain,
    /// The ten columns of a table that also has minutes for slack waters.
    WithSlack,
}

static COLUMNS: [&str; 10] = [
    "name",
    "reference",
    "high_add",
    "low_add",
    "high_times",
    "low_times",
    "high_plus",
    "low_plus",
    "flood_add",
    "ebb_add",
];

impl Header {
    /// Returns the number of columns of a table with this header: 8 or 10.
    pub fn count(self) -> usize
        ensures { result ≡ length (columns_of self) }
    {
        match self {
            Header::Plain => 8,
            Header::WithSlack => 10,
        }
    }
}

/// Returns the field of a record in `column`, counted from 0, or no bytes if the record has too few
/// fields.
pub fn field(fields: &ByteRecord, column: usize) -> &[u8]
    ensures { result.now ≡ field_of (fields_of fields.now) column }
{
    match fields.get(column) {
        Some(field) => field,
        None => &[],
    }
}

/// Returns true if the fields of a record are exactly `names`, in this order.
fn has_names(fields: &ByteRecord, names: &[&str]) -> bool
    ensures { result ≡ pointwise bytes_eq (fields_of fields.now) (map (λ name. name.now) names.now) }
{
    if fields.len() != names.len() {
        return false;
    }
    for (column, name) in names.iter().enumerate() {
        if field(fields, column) != name.as_bytes() {
            return false;
        }
    }
    true
}

/// Returns true if the fields of a record are exactly the column names of `header`.
fn has_columns(fields: &ByteRecord, header: Header) -> bool
    ensures { result ≡ has_columns header (fields_of fields.now) }
{
    match header {
        Header::Plain => has_names(fields, COLUMNS.split_at(8).0),
        Header::WithSlack => has_names(fields, &COLUMNS),
    }
}

/// Returns the header in `fields`, the first record of a file.
///
/// # Errors
/// - [`OffsetFault::At`] with row 1 and [`OffsetWhy::BadHeader`]: when `fields` aren't exactly the
///   column names of a table with or without minutes for slack waters.
#[tactic(auto, unfolding(crate::specs::Table::header_of))]
pub fn header_of(fields: &ByteRecord) -> Result<Header, OffsetFault>
    ensures { result ≡ header_of (fields_of fields.now) }
{
    if has_columns(fields, Header::Plain) {
        Ok(Header::Plain)
    } else if has_columns(fields, Header::WithSlack) {
        Ok(Header::WithSlack)
    } else {
        Err(NO_HEADER)
    }
}

/// The fault of a file in which the first record isn't a header, or which has no record: a bad
/// header in row 1.
pub const NO_HEADER: OffsetFault = OffsetFault::At {
    row: 1,
    why: OffsetWhy::BadHeader,
};
