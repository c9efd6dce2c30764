//! The reasons why a file wasn't read whole.

ghost use Rattle.std.specs.Prelude.{◌≡◌};

use crate::failed::Failed as CallFailed;
use std::alloc::AllocError;
use thiserror::Error;

/// The reason why a whole file couldn't be read.
#[derive(Clone, Copy, Debug, PartialEq, Eq, Error)]
pub enum ReadAllFault {
    /// Opening or reading the file failed.
    #[error("the file can't be read")]
    Failed,
    /// The file has more bytes than the limit that the caller gave.
    #[error("the file is too long")]
    TooLong,
    /// Memory for the file's bytes ran out.
    #[error("no memory for the file")]
    NoMemory,
}

impl From<CallFailed> for ReadAllFault {
    ghost use Rattle.tide_edge.specs.declared.files.read_all_fault.ReadAllFault.TheVariants.{Failed};

    ghost from_gives = { λ _ fault. fault ≡ Failed };

    fn from(_: CallFailed) -> ReadAllFault {
        ReadAllFault::Failed
    }
}

impl From<AllocError> for ReadAllFault {
    ghost use Rattle.tide_edge.specs.declared.files.read_all_fault.ReadAllFault.TheVariants.{NoMemory};

    ghost from_gives = { λ _ fault. fault ≡ NoMemory };

    fn from(_: AllocError) -> ReadAllFault {
        ReadAllFault::NoMemory
    }
}
