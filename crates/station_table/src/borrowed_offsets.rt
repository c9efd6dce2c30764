//! One row of a table of offsets.

ghost use Rattle.std.specs.Prelude.{◌≡◌, IfOk};
ghost use Rattle.std.specs.Option.{ForSome};
ghost use Rattle.csv.specs.Records.{fields_of};
ghost use Rattle.station_table.specs.Offsets.{IsSlack, IsOffsets};
ghost use Rattle.station_table.specs.Table.{slack_of, offsets_of};
ghost use Rattle.station_table.specs.Workings.Rows.{offsets_in, Reads};

use crate::fault::OffsetWhy;
use crate::field::{add, name, plus, times};
use crate::header::{Header, field};
use crate::offset::{Offset, Slack};
use crate::offsets::Offsets;
use csv::ByteRecord;
use decimal_text::Text;
use std::alloc::{AllocError, Global};

/// A valid row of a table of offsets. Its names are borrowed from the CSV record that it was read
/// from.
#[derive(Clone, Copy)]
pub struct BorrowedOffsets<'a> {
    pub name: &'a str,
    pub reference: &'a str,
    pub high: Offset,
    pub low: Offset,
    pub slack: Option<Slack>,
}

/// Returns the row in `fields`, a record of a table with the columns of `header`.
///
/// # Errors
/// - [`OffsetWhy::FieldCount`]: when the record has another number of fields than the header has
///   columns.
/// - [`OffsetWhy::NotUtf8`], [`OffsetWhy::BadName`], [`OffsetWhy::BadNumber`],
///   [`OffsetWhy::TooFine`] or [`OffsetWhy::OutOfRange`]: when the number of fields is right, for
///   the first bad field from left to right.
/// - [`OffsetWhy::HalfSlack`]: when each field is good, but exactly one of the two times of slack
///   water is empty.
#[tactic(auto, unfolding(crate::specs::Table::offsets_of))]
pub fn row_of(fields: &ByteRecord, header: Header) -> Result<BorrowedOffsets<'_>, OffsetWhy>
    ensures exact { Reads offsets_in (offsets_of header (fields_of fields.now)) result }
    ensures valid { IfOk result (λ row. IsOffsets (offsets_in row)) }
{
    if fields.len() != header.count() {
        return Err(OffsetWhy::FieldCount);
    }
    let own = name(field(fields, 0))?;
    let reference = name(field(fields, 1))?;
    let high_add = add(field(fields, 2))?;
    let low_add = add(field(fields, 3))?;
    let high_times = times(field(fields, 4))?;
    let low_times = times(field(fields, 5))?;
    let high_plus = plus(field(fields, 6))?;
    let low_plus = plus(field(fields, 7))?;
    let slack = slack(fields, header)?;
    Ok(BorrowedOffsets {
        name: own,
        reference,
        high: Offset {
            add: high_add,
            times: high_times,
            plus: high_plus,
        },
        low: Offset {
            add: low_add,
            times: low_times,
            plus: low_plus,
        },
        slack,
    })
}

/// Returns the minutes added to the times of slack water, or `None` if both fields are empty or the
/// table has no such columns.
#[tactic(auto, unfolding(crate::specs::Table::slack_of))]
fn slack(fields: &ByteRecord, header: Header) -> Result<Option<Slack>, OffsetWhy>
    ensures exact { result ≡ slack_of header (fields_of fields.now) }
    ensures valid { IfOk result (λ slack. ForSome slack IsSlack) }
{
    match header {
        Header::Plain => Ok(None),
        Header::WithSlack => {
            let flood = field(fields, 8);
            let ebb = field(fields, 9);
            let flood_add = add(flood)?;
            let ebb_add = add(ebb)?;
            match (flood.is_empty(), ebb.is_empty()) {
                (true, true) => Ok(None),
                (false, false) => Ok(Some(Slack { flood_add, ebb_add })),
                _ => Err(OffsetWhy::HalfSlack),
            }
        }
    }
}

impl BorrowedOffsets<'_> {
    /// Returns the same row with its own copies of the names.
    ///
    /// # Errors
    /// - [`AllocError`]: when memory runs out.
    pub fn to_offsets(&self, alloc: Global) -> Result<Offsets, AllocError>
        ensures { IfOk result (λ offsets. offsets ≡ offsets_in self.now) }
    {
        Ok(Offsets {
            name: Text::from_str(alloc, self.name)?,
            reference: Text::from_str(alloc, self.reference)?,
            high: self.high,
            low: self.low,
            slack: self.slack,
        })
    }
}
