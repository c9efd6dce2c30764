//! The reasons why a command line has no answer.

use station_table::OffsetTable;
use tide_fault::{Fault, Refusal};

/// The reason why a command line has no answer.
#[derive(Drop)]
pub enum RunFault {
    /// A file couldn't be opened or read to its end, or the clock couldn't be read.
    Unread,
    /// The command line isn't a request, a file is too long or isn't in its format, or a request that
    /// names no file has no answer.
    Faulty(Fault),
    /// The request is refused with the files that were read. The table, which is the table of offsets
    /// that was read, has the names for the line that reports the refusal.
    Refused(Refusal, OffsetTable),
}

impl From<Fault> for RunFault {
    ghost use Rattle.std.specs.Prelude.{◌≡◌};
    ghost use Rattle.named_files.specs.declared.run_fault.RunFault.TheVariants.{Faulty};

    ghost from_gives = { λ fault none. none ≡ Faulty fault };

    fn from(fault: Fault) -> RunFault {
        RunFault::Faulty(fault)
    }
}
