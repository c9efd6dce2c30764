//! The errors of reading a harmonics file.

ghost use Rattle.std.specs.Prelude.{◌≡◌};

use std::alloc::AllocError;

/// The reason why one line of a harmonics file couldn't be read.
#[derive(Clone, Copy)]
pub enum LineFault {
    /// Memory ran out while the line was read.
    NoMemory,
    /// The line breaks a rule of the file format, or several; this is the first reason in the order
    /// of the checks.
    Bad(Why),
}

/// The reason why a line of a harmonics file is bad, or why the file is incomplete. The file format
/// numbers these reasons from 1 to 13 in this order (docs/CERTIFICATES.md).
#[derive(Clone, Copy, Debug, PartialEq, Eq)]
pub enum Why {
    /// The line with the number of constituents, or with the number of years of a table, isn't a
    /// whole number from 1 to 500, written in at most nine digits.
    BadCount,
    /// The name of a constituent is `x` or `*END*`, has more than 32 bytes, has a byte below 32 or
    /// the byte 127, or is the name of an earlier constituent. Or a station's name has more than
    /// 200 bytes, a byte below 32 (such as a tab) or the byte 127.
    BadName,
    /// A number isn't a decimal or has more than 18 digits before its point; the first year isn't
    /// one to nine digits; a constituent's line has no speed, or a token after it; a station's line
    /// for a constituent doesn't have exactly two numbers; or a line of a table has more values
    /// than its constituent still lacks.
    BadNumber,
    /// A number has a digit other than 0 after the last decimal place that counts: the seventh in
    /// speeds, equilibrium arguments and epochs, the sixth in node factors, datums and amplitudes.
    TooFine,
    /// A number isn't in its range: first years from 2 to 8800, speeds from 0 to 360 degrees an
    /// hour, equilibrium arguments and epochs from -720 to 720 degrees, node factors from 0 to 10,
    /// datums and amplitudes from -10,000 to 10,000.
    OutOfRange,
    /// The number of years before the node factors isn't the one before the equilibrium arguments.
    YearsDiffer,
    /// A line of a table or of a station names another constituent than the one expected there, by
    /// the order in which the file lists the constituents; or the line in a table has more than the
    /// name.
    WrongConstituent,
    /// The line after a complete table isn't `*END*`.
    NoEnd,
    /// The line after a station's name isn't a meridian from -15:59 to 15:59, such as `-5:00`, with
    /// or without the name of a time zone after it; this name has at most 100 bytes, none of them
    /// below 33 or equal to 127.
    BadMeridian,
    /// The line of a station's datum isn't two tokens, or the second one isn't `feet`, `meters`,
    /// `knots` or `knots^2`.
    BadUnits,
    /// The file ends before its tables or its last station are complete.
    CutShort,
    /// The line begins a station after the 20,000 stations that a file may have.
    TooManyStations,
    /// A line other than a comment has more than 4,096 bytes before its LF, a CR included.
    LineTooLong,
}

impl Why {
    ghost use Rattle.harmonics_text.specs.Whys.{fault_number, text_of};

    /// Returns the number of this reason in docs/CERTIFICATES.md, from 1 to 13.
    pub fn number(self) -> u32
        ensures { result ≡ fault_number self }
    {
        match self {
            Why::BadCount => 1,
            Why::BadName => 2,
            Why::BadNumber => 3,
            Why::TooFine => 4,
            Why::OutOfRange => 5,
            Why::YearsDiffer => 6,
            Why::WrongConstituent => 7,
            Why::NoEnd => 8,
            Why::BadMeridian => 9,
            Why::BadUnits => 10,
            Why::CutShort => 11,
            Why::TooManyStations => 12,
            Why::LineTooLong => 13,
        }
    }

    /// Returns the text that error messages have for this reason, such as `bad number`.
    pub fn text(self) -> &'static str
        ensures { result.now ≡ text_of self }
    {
        match self {
            Why::BadCount => "bad count",
            Why::BadName => "bad name",
            Why::BadNumber => "bad number",
            Why::TooFine => "too fine",
            Why::OutOfRange => "out of range",
            Why::YearsDiffer => "years differ",
            Why::WrongConstituent => "wrong constituent",
            Why::NoEnd => "no end",
            Why::BadMeridian => "bad meridian",
            Why::BadUnits => "bad units",
            Why::CutShort => "cut short",
            Why::TooManyStations => "too many stations",
            Why::LineTooLong => "line too long",
        }
    }
}

impl From<AllocError> for LineFault {
    ghost use Rattle.harmonics_text.specs.declared.fault.LineFault.TheVariants.{NoMemory};

    ghost from_gives = { λ _ e. e ≡ NoMemory };

    fn from(_e: AllocError) -> LineFault {
        LineFault::NoMemory
    }
}

impl From<Why> for LineFault {
    ghost use Rattle.harmonics_text.specs.declared.fault.LineFault.TheVariants.{Bad};

    ghost from_gives = { λ why e. e ≡ Bad why };

    fn from(why: Why) -> LineFault {
        LineFault::Bad(why)
    }
}

/// The reason why a harmonics file couldn't be read.
#[derive(Clone, Copy, Debug, PartialEq, Eq)]
pub enum BookFault {
    /// Memory ran out while the file was read.
    NoMemory,
    /// The number of the first line that breaks a rule, counted from 1 over all lines, and the
    /// reason. If the file ends too early, this is the number after the last line's, and the reason
    /// is [`Why::CutShort`].
    At { line: u32, why: Why },
}

impl From<AllocError> for BookFault {
    ghost use Rattle.harmonics_text.specs.declared.fault.BookFault.TheVariants.{NoMemory};

    ghost from_gives = { λ _ e. e ≡ NoMemory };

    fn from(_e: AllocError) -> BookFault {
        BookFault::NoMemory
    }
}
