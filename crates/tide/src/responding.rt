//! The program over its arguments as text.

ghost use Rattle.std.specs.Prelude.{◌≡◌, None, map};
ghost use Rattle.tide_desk.specs.Outcomes.{EndsAs, outputs};
ghost use Rattle.tide_fault.specs.declared.status.Status.{Status};
ghost use Rattle.tide.specs.Pages.{page_answer};
ghost use Rattle.tide.specs.Promises.{RespondsAs, world, world_states};

use crate::help::{InfoPage, page_asked};
use decimal_text::Words;
use named_files::refuse;
use question::asks_to_serve;
use report_sheets::Sheet;
use std::alloc::Global;
use tide_desk::run;
use tide_edge::{Clock, Door, Files, Sink, write_all};
use tide_fault::Status;
use tide_server::serve;

/// Responds to the arguments `words`, using only the objects that are passed: writes the help or the
/// version if they request it, serves if their command is `serve`, and otherwise answers them. `sheets`
/// are the sheets that a report can have. Returns the exit status, 0 to 8. Help and version are written
/// without allocating and use no files, port or clock; an answer doesn't use the port, and serving
/// doesn't use `out`.
pub fn respond<F: Files, D: Door, O: Sink, E: Sink, K: Clock>(
    alloc: Global,
    words: &Words,
    files: &mut F,
    door: &mut D,
    out: &mut O,
    err: &mut E,
    clock: &mut K,
    sheets: Vec<Box<dyn Sheet>>,
) -> Status
    requires { (D.state door.old).listener_state.port ≡ None }
    ensures { RespondsAs (world_states F.state D.state O.state E.state K.state) (map sheet_spec sheets.items) words.now result
        (world files.old door.old out.old err.old clock.old) (world files.new door.new out.new err.new clock.new) }
{
    match page_asked(words) {
        Some(page) => write_page(page, out, err),
        None if asks_to_serve(words) => serve(alloc, words, files, door, err, clock),
        None => run(alloc, words, files, out, err, clock, sheets),
    }
}

/// Writes `page` to `out`, and returns the exit status.
fn write_page<O: Sink, E: Sink>(page: InfoPage, out: &mut O, err: &mut E) -> Status
    ensures ends { EndsAs (page_answer page) result
        (outputs (O.state out.old) (E.state err.old)) (outputs (O.state out.new) (E.state err.new)) }
    ensures memory { ¬ (result ≡ Status.NoMemory) }
{
    match write_all(out, page.text().as_bytes()) {
        Ok(()) => Status::Done,
        Err(_) => refuse(err, Status::WriteFault, b"write fault\n"),
    }
}
