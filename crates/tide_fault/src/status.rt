//! The exit statuses of the program.

ghost use Rattle.std.specs.Prelude.{◌≡◌};

/// The result of a run of the program; its number is the exit status.
#[derive(Clone, Copy, Debug, PartialEq, Eq)]
pub enum Status {
    /// The whole answer was written.
    Done,
    /// The certificate was checked, and isn't valid.
    Rejected,
    /// The command line or query isn't a request.
    Words,
    /// A file is too long or isn't in its format.
    FileRefused,
    /// The request has no answer with the files that were read.
    Refused,
    /// A number exceeds a limit of the program, such as the number of minutes in the span.
    Limit,
    /// Reading a file or the clock failed.
    ReadFault,
    /// Writing the answer failed.
    WriteFault,
    /// Memory ran out before the answer was written.
    NoMemory,
}

impl Status {
    ghost use Rattle.tide_fault.specs.Statuses.{status_number};

    /// Returns the number of this status, which is the exit status of the program, from 0 to 8.
    pub fn number(&self) -> u8
        ensures { result ≡ status_number self.now }
    {
        *self as u8
    }
}
