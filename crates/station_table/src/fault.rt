//! The faults of a file of offsets.

use std::alloc::AllocError;

/// The reason why a row of a file of offsets is bad. Each reason has a number in the file format,
/// from 1 in this order (docs/FORMATS.md).
#[derive(Clone, Copy, Debug, PartialEq, Eq)]
pub enum OffsetWhy {
    /// The first record isn't the row of column names, or the file has no record.
    BadHeader,
    /// The row has another number of fields than the header.
    FieldCount,
    /// A field for minutes isn't of the form `H:MM` or `HH:MM` with an optional sign, or a field
    /// for a factor or a height isn't a decimal with at most 18 digits before its point.
    BadNumber,
    /// A factor or a height has a digit other than 0 after its sixth decimal place.
    TooFine,
    /// A number isn't in the range of its field.
    OutOfRange,
    /// The bytes of a field aren't UTF-8.
    NotUtf8,
    /// A name is empty, longer than 400 bytes, or has a control byte of ASCII (below 32, or 127).
    BadName,
    /// Exactly one of the two times of slack water is given.
    HalfSlack,
}

impl OffsetWhy {
    ghost use Rattle.std.specs.Prelude.{◌≡◌};
    ghost use Rattle.station_table.specs.Reasons.{fault_number, text_of};

    /// Returns the number of the reason in the file format, from 1 to 8.
    pub fn number(self) -> u32
        ensures { result ≡ fault_number self }
    {
        match self {
            OffsetWhy::BadHeader => 1,
            OffsetWhy::FieldCount => 2,
            OffsetWhy::BadNumber => 3,
            OffsetWhy::TooFine => 4,
            OffsetWhy::OutOfRange => 5,
            OffsetWhy::NotUtf8 => 6,
            OffsetWhy::BadName => 7,
            OffsetWhy::HalfSlack => 8,
        }
    }

    /// Returns the text that is printed for the reason, such as `bad number`.
    pub fn text(self) -> &'static str
        ensures { result.now ≡ text_of self }
    {
        match self {
            OffsetWhy::BadHeader => "bad header",
            OffsetWhy::FieldCount => "field count",
            OffsetWhy::BadNumber => "bad number",
            OffsetWhy::TooFine => "too fine",
            OffsetWhy::OutOfRange => "out of range",
            OffsetWhy::NotUtf8 => "not UTF-8",
            OffsetWhy::BadName => "bad name",
            OffsetWhy::HalfSlack => "half slack",
        }
    }
}

/// The reason why a file couldn't be read as a table of offsets.
#[derive(Clone, Copy, Debug, PartialEq, Eq)]
pub enum OffsetFault {
    /// Memory ran out while the table was read.
    NoMemory,
    /// The number `row` of the first row that breaks a rule, and `why`, the first reason why it
    /// does. The header is row 1, and blank lines aren't counted; a file without a header has its
    /// fault in row 1.
    At { row: u32, why: OffsetWhy },
}

impl From<AllocError> for OffsetFault {
    ghost use Rattle.std.specs.Prelude.{◌≡◌};
    ghost use Rattle.station_table.specs.declared.fault.OffsetFault.TheVariants.{NoMemory};

    ghost from_gives = { λ _ e. e ≡ NoMemory };

    fn from(_error: AllocError) -> OffsetFault {
        OffsetFault::NoMemory
    }
}
