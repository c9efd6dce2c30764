//! The reasons why a request has no answer with the files that were read.

use cert_text::CertFault;
use harmonics_text::Why;
use station_curve::CurveFault;
use station_table::FindFault;
use std::alloc::AllocError;

/// The reason why a request has no answer with the files that were read.
#[derive(Clone, Copy, Debug)]
pub enum Refusal {
    /// Memory ran out while the request was answered.
    NoMemory,
    /// The bytes to be checked aren't a certificate. `line`, counted from 1, is the first line such
    /// that no certificate begins with the lines up to and including it; it is one past the last
    /// line if the bytes end too early.
    NotACertificate { line: u32 },
    /// The harmonics file that the program made from the request's seed isn't in the format of such
    /// files: `line`, counted from 1, is the first line that breaks a rule, and `why` the first
    /// reason.
    BadSample { line: u32, why: Why },
    /// Neither the harmonics file nor the table of subordinate stations has a station with the
    /// requested name.
    NoStation,
    /// The harmonics file doesn't have the reference station that is named in the row with the
    /// index `row`, counted from 0, of the table of subordinate stations.
    NoReference { row: u32 },
    /// The station is a hydraulic current: its speed is the square root of the sum of its
    /// constituents.
    Hydraulic,
    /// The end of the requested span is before its beginning.
    BackwardSpan,
    /// The request is for the highest water of a span without any minute.
    EmptySpan,
    /// The span isn't within the years of the harmonics file, which are the minutes from `first` up
    /// to but not including `last`, counted from 1970-01-01T00:00Z.
    OutOfYears { first: i64, last: i64 },
    /// In a year the absolute amplitudes of the station's constituents sum to more than
    /// 1,000,000,000 millionths of the station's unit; `year` is the first such year.
    TooLarge { year: i32 },
    /// In a year the sum over the station's constituents of the absolute amplitude, in millionths
    /// of the station's unit, times the absolute speed, in ten-millionths of a degree an hour,
    /// exceeds 10^17; `year` is the first such year.
    TooSteep { year: i32 },
    /// The span has `minutes` minutes, more than the 5,270,400 that the program answers.
    SpanTooLong { minutes: i64 },
    /// The request has a mark (a level at which crossings are listed), and the station's high and
    /// low waters have different offsets from its reference station.
    MarkNotHere,
    /// The request is for levels at given minutes, and the station's high and low waters have
    /// different offsets from its reference station.
    LevelNotHere,
    /// The request is for `rows` heights, more than the 100,000 that the program lists.
    TooManyRows { rows: i64 },
}

impl From<AllocError> for Refusal {
    ghost use Rattle.std.specs.Prelude.{◌≡◌};
    ghost use Rattle.tide_fault.specs.declared.refusal.Refusal.TheVariants.{NoMemory};

    ghost from_gives = { λ _ refusal. refusal ≡ NoMemory };

    fn from(_: AllocError) -> Refusal {
        Refusal::NoMemory
    }
}

impl From<CertFault> for Refusal {
    ghost use Rattle.std.specs.Prelude.{◌≡◌};
    ghost use Rattle.tide_fault.specs.Faults.{refusal_of_cert};

    ghost from_gives = { λ cert refusal. refusal ≡ refusal_of_cert cert };

    fn from(fault: CertFault) -> Refusal {
        match fault {
            CertFault::NoMemory => Refusal::NoMemory,
            CertFault::NotACertificate { line } => Refusal::NotACertificate { line },
        }
    }
}

impl From<FindFault> for Refusal {
    ghost use Rattle.std.specs.Prelude.{◌≡◌};
    ghost use Rattle.tide_fault.specs.Faults.{refusal_of_find};

    ghost from_gives = { λ find refusal. refusal ≡ refusal_of_find find };

    fn from(fault: FindFault) -> Refusal {
        match fault {
            FindFault::NoStation => Refusal::NoStation,
            FindFault::NoReference { row } => Refusal::NoReference { row },
        }
    }
}

impl From<CurveFault> for Refusal {
    ghost use Rattle.std.specs.Prelude.{◌≡◌};
    ghost use Rattle.tide_fault.specs.Faults.{refusal_of_curve};

    ghost from_gives = { λ curve refusal. refusal ≡ refusal_of_curve curve };

    fn from(fault: CurveFault) -> Refusal {
        match fault {
            CurveFault::NoMemory => Refusal::NoMemory,
            CurveFault::Hydraulic => Refusal::Hydraulic,
            CurveFault::TooLarge { year } => Refusal::TooLarge { year },
            CurveFault::TooSteep { year } => Refusal::TooSteep { year },
        }
    }
}
