//! The program over its arguments.

ghost use Rattle.std.specs.Prelude.{◌≡◌, None};
ghost use Rattle.tide.specs.Promises.{AnswersArguments, world, world_states};

use crate::arguments::{ArgumentError, report_argument_error, words_from};
use crate::sheets::respond_with_sheets;
use std::alloc::Global;
use std::env::Args;
use std::io;
use tide_edge::{Clock, Door, Files, Sink};
use tide_fault::Status;

/// Responds to `arguments`, using only the objects that are passed, and returns the exit status, 0 to 8.
/// A report can have the sheets `tally`, `range`, `first` and `ical`. If the arguments can't be used,
/// the reason is written to `err`.
pub fn respond_to<F: Files, D: Door, O: Sink, E: Sink, K: Clock>(
    alloc: Global,
    arguments: io::Result<Args>,
    files: &mut F,
    door: &mut D,
    out: &mut O,
    err: &mut E,
    clock: &mut K,
) -> Status
    requires { (D.state door.old).listener_state.port ≡ None }
    ensures { AnswersArguments (world_states F.state D.state O.state E.state K.state) arguments result
        (world files.old door.old out.old err.old clock.old) (world files.new door.new out.new err.new clock.new) }
{
    let words = match words_from(alloc, arguments) {
        Ok(words) => words,
        Err(why) => return report_argument_error(why, err),
    };
    match respond_with_sheets(alloc, &words, files, door, out, err, clock) {
        Ok(status) => status,
        Err(_) => report_argument_error(ArgumentError::NoMemory, err),
    }
}
