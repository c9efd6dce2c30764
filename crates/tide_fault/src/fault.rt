//! The reasons why a request has no answer.

ghost use Rattle.std.specs.Prelude.{◌≡◌};
ghost use Rattle.tide_fault.specs.Faults.{status_of, status_of_ask, status_of_form, status_of_table, status_of_refusal};

use crate::refusal::Refusal;
use crate::slot::Slot;
use crate::status::Status;
use decimal_text::Text;
use harmonics_text::BookFault;
use question::AskFault;
use station_table::OffsetFault;

/// The reason why a request has no answer.
#[derive(Drop)]
pub enum Fault {
    /// The command line or query isn't a request, or memory ran out while it was read.
    Ask(AskFault),
    /// The request names `word` as a sheet of a report, and there is no such sheet.
    NoSheet { word: Text },
    /// A file of this kind has more bytes than the program reads.
    TooLong(Slot),
    /// The file of harmonic constants has a bad line, or memory ran out while it was read.
    Book(BookFault),
    /// The table of subordinate stations has a bad row, or memory ran out while it was read.
    Offsets(OffsetFault),
    /// The time zone's file isn't a zone file, or the rule in its footer contradicts the last row
    /// of its table of changes.
    BadZone,
    /// The files were read, and the request has no answer with their contents, or memory ran out.
    Refused(Refusal),
}

/// Returns the exit status of a run that ends with `fault`. Nothing is allocated.
pub fn fault_status(fault: &Fault) -> Status
    ensures { result ≡ status_of fault.now }
{
    match fault {
        Fault::Ask(ask) => ask_status(*ask),
        Fault::NoSheet { .. } => Status::Refused,
        Fault::TooLong(_) => Status::FileRefused,
        Fault::Book(form) => form_status(*form),
        Fault::Offsets(table) => table_status(*table),
        Fault::BadZone => Status::FileRefused,
        Fault::Refused(refusal) => refusal_status(*refusal),
    }
}

/// Returns the exit status for a command line or query that isn't a request, or if memory ran out.
fn ask_status(fault: AskFault) -> Status
    ensures { result ≡ status_of_ask fault }
{
    match fault {
        AskFault::NoMemory => Status::NoMemory,
        _ => Status::Words,
    }
}

/// Returns the exit status for a file of harmonic constants that isn't in its format, or if memory
/// ran out.
fn form_status(fault: BookFault) -> Status
    ensures { result ≡ status_of_form fault }
{
    match fault {
        BookFault::NoMemory => Status::NoMemory,
        BookFault::At { .. } => Status::FileRefused,
    }
}

/// Returns the exit status for a table of subordinate stations that isn't in its format, or if
/// memory ran out.
fn table_status(fault: OffsetFault) -> Status
    ensures { result ≡ status_of_table fault }
{
    match fault {
        OffsetFault::NoMemory => Status::NoMemory,
        OffsetFault::At { .. } => Status::FileRefused,
    }
}

/// Returns the exit status for `refusal`.
fn refusal_status(refusal: Refusal) -> Status
    ensures { result ≡ status_of_refusal refusal }
{
    match refusal {
        Refusal::NoMemory => Status::NoMemory,
        Refusal::NotACertificate { .. } | Refusal::BadSample { .. } => Status::FileRefused,
        Refusal::NoStation
        | Refusal::NoReference { .. }
        | Refusal::Hydraulic
        | Refusal::BackwardSpan
        | Refusal::EmptySpan
        | Refusal::OutOfYears { .. }
        | Refusal::MarkNotHere
        | Refusal::LevelNotHere => Status::Refused,
        Refusal::TooLarge { .. }
        | Refusal::TooSteep { .. }
        | Refusal::SpanTooLong { .. }
        | Refusal::TooManyRows { .. } => Status::Limit,
    }
}

impl From<AskFault> for Fault {
    ghost use Rattle.std.specs.Prelude.{◌≡◌};
    ghost use Rattle.tide_fault.specs.declared.fault.Fault.TheVariants.{Ask};

    ghost from_gives = { λ ask fault. fault ≡ Ask ask };

    fn from(fault: AskFault) -> Fault {
        Fault::Ask(fault)
    }
}

impl From<BookFault> for Fault {
    ghost use Rattle.std.specs.Prelude.{◌≡◌};
    ghost use Rattle.tide_fault.specs.declared.fault.Fault.TheVariants.{Book};

    ghost from_gives = { λ form fault. fault ≡ Book form };

    fn from(fault: BookFault) -> Fault {
        Fault::Book(fault)
    }
}

impl From<Refusal> for Fault {
    ghost use Rattle.std.specs.Prelude.{◌≡◌};
    ghost use Rattle.tide_fault.specs.declared.fault.Fault.TheVariants.{Refused};

    ghost from_gives = { λ refusal fault. fault ≡ Refused refusal };

    fn from(refusal: Refusal) -> Fault {
        Fault::Refused(refusal)
    }
}
