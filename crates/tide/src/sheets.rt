//! The program with its sheets of a report.

ghost use Rattle.std.specs.Prelude.{◌≡◌, None, IfOk, OnErr};
ghost use Rattle.tide.specs.Promises.{RespondsAs, program_sheets, world, world_states};

use crate::responding::respond;
use decimal_text::Words;
use ical_sheet::IcalSheet;
use report_sheets::{FirstLines, Ranges, Sheet, Tally};
use std::alloc::{AllocError, Global};
use tide_edge::{Clock, Door, Files, Sink};
use tide_fault::Status;

/// The greatest number of events that each of the sheets `tally` and `range` accepts.
const MOST_COUNTED: u32 = 1_000_000;

/// The greatest number of events that the sheet `first` accepts.
const MOST_FIRST: u32 = 10;

/// The greatest number of events that the sheet `ical` accepts.
const MOST_IN_CALENDAR: u32 = 100_000;

/// Responds to the arguments `words` as [`respond`] does; a report can have the sheets `tally`, `range`,
/// `first` and `ical`.
///
/// # Errors
/// [`AllocError`] if memory for the sheets runs out: then nothing was read or written.
pub fn respond_with_sheets<F: Files, D: Door, O: Sink, E: Sink, K: Clock>(
    alloc: Global,
    words: &Words,
    files: &mut F,
    door: &mut D,
    out: &mut O,
    err: &mut E,
    clock: &mut K,
) -> Result<Status, AllocError>
    requires { (D.state door.old).listener_state.port ≡ None }
    ensures responds { IfOk result
        (λ status. RespondsAs (world_states F.state D.state O.state E.state K.state) program_sheets words.now status
        (world files.old door.old out.old err.old clock.old) (world files.new door.new out.new err.new clock.new)) }
    ensures untouched { OnErr result ((files.new ≡ files.old) × (door.new ≡ door.old) × (out.new ≡ out.old)
        × (err.new ≡ err.old) × (clock.new ≡ clock.old)) }
{
    let mut sheets: Vec<Box<dyn Sheet>> = Vec::new(alloc);
    sheets.push(Box::new(alloc, Tally::new(alloc, MOST_COUNTED))?)?;
    sheets.push(Box::new(alloc, Ranges::new(alloc, MOST_COUNTED))?)?;
    sheets.push(Box::new(alloc, FirstLines::new(alloc, MOST_FIRST))?)?;
    sheets.push(Box::new(alloc, IcalSheet::new(alloc, MOST_IN_CALENDAR))?)?;
    Ok(respond(alloc, words, files, door, out, err, clock, sheets))
}
