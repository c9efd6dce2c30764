//! The faults of a question.

use crate::key::Key;
use std::alloc::AllocError;

/// The first fault of a question: a fault of its command or of one of its items (arguments after
/// the command, or pairs of a query, counted from 1), or a missing key that the command requires.
#[derive(Clone, Copy, Debug, PartialEq, Eq)]
pub enum AskFault {
    /// Memory ran out while the question was read.
    NoMemory,
    /// The question has no command, as a command line without arguments.
    NoCommand,
    /// No command has this name, or a question of this origin can't have it (a web query can have
    /// only commands for which the server has a path).
    UnknownCommand,
    /// The item with this number has no value: it is an argument without `=`.
    NotAPair(u64),
    /// The command doesn't have the key of the item with this number, or not in a question of this
    /// origin (a web query has no keys for files).
    UnknownKey(u64),
    /// The item with this number has the same key as an earlier item.
    RepeatedKey(u64),
    /// The value of the item with this number isn't in the form of its key's values.
    BadValue(u64),
    /// The command requires this key in a question of this origin, and no item has it.
    MissingKey(Key),
}

impl From<AllocError> for AskFault {
    ghost use Rattle.std.specs.Prelude.{◌≡◌};
    ghost use Rattle.question.specs.declared.fault.AskFault.TheVariants.{NoMemory};

    ghost from_gives = { λ _ fault. fault ≡ NoMemory };

    fn from(_: AllocError) -> AskFault {
        AskFault::NoMemory
    }
}
