//! The arguments of the program.

ghost use Rattle.std.specs.Prelude.{◌≡◌, ◌↔◌, Bool, IfOk, IfErr, map, drop, string_bytes};
ghost use Rattle.std.specs.Vec.Iter.{into_iter_items};
ghost use Rattle.tide_edge.specs.SinkStates.{Wrote};
ghost use Rattle.tide.specs.ArgumentErrors.{HasWords, LacksWords, line_of, status_of};

use decimal_text::{Text, Words};
use named_files::refuse;
use std::alloc::{AllocError, Global};
use std::env::Args;
use std::io::{self, ErrorKind};
use tide_edge::Sink;
use tide_fault::Status;

/// The reason why the program can't use its arguments.
#[derive(Clone, Copy, PartialEq, Eq)]
pub enum ArgumentError {
    /// An argument isn't UTF-8.
    NotText,
    /// Memory ran out while the arguments were read.
    NoMemory,
}

/// Returns the program's arguments as words, without the program's name, which is the first of the
/// system's `arguments`.
///
/// # Errors
/// [`ArgumentError::NotText`] if an argument isn't UTF-8, and [`ArgumentError::NoMemory`] if memory runs
/// out.
pub fn words_from(alloc: Global, arguments: io::Result<Args>) -> Result<Words, ArgumentError>
    ensures words { IfOk result (HasWords arguments) }
    ensures refused { IfErr result (LacksWords arguments) }
{
    match arguments {
        Ok(arguments) => words_of(alloc, arguments).map_err(|_| ArgumentError::NoMemory),
        Err(fault) => Err(why_of(fault.kind())),
    }
}

/// Returns the reason why the system has no arguments.
fn why_of(kind: ErrorKind) -> ArgumentError
    ensures { (result ≡ ArgumentError.NoMemory) ↔ (kind ≡ ErrorKind.OutOfMemory) }
{
    match kind {
        ErrorKind::OutOfMemory => ArgumentError::NoMemory,
        _ => ArgumentError::NotText,
    }
}

/// Returns all `arguments` except the first, which is the program's name, in the order of the
/// command line.
///
/// # Errors
/// [`AllocError`] if memory runs out.
pub fn words_of(alloc: Global, mut arguments: Args) -> Result<Words, AllocError>
    ensures { IfOk result (λ words. words ≡ map string_bytes (drop 1 (into_iter_items arguments))) }
{
    let _program = arguments.next();
    let mut words = Vec::new(alloc);
    while let Some(argument) = arguments.next() {
        words.push(Text::from_str(alloc, argument.as_str())?)?;
    }
    Ok(Words::from_vec(words))
}

/// Writes to `err` the line that reports `why`, the reason why the arguments can't be used, and returns
/// the exit status for this reason, even if the write fails.
pub fn report_argument_error<E: Sink>(why: ArgumentError, err: &mut E) -> Status
    ensures status { result ≡ status_of why }
    ensures line { (failed : Bool) × Wrote (E.state err.old) (E.state err.new) failed (line_of why) }
{
    match why {
        ArgumentError::NotText => refuse(err, Status::Words, b"words: refused\n"),
        ArgumentError::NoMemory => refuse(err, Status::NoMemory, b"no memory\n"),
    }
}
