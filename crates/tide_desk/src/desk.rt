//! One run, from the arguments to the exit status.

ghost use Rattle.std.specs.Prelude.{◌≡◌, false, Ok, if◌then◌else◌, map};
ghost use Rattle.named_files.specs.RunFaults.{is_read_fault};
ghost use Rattle.tide_desk.specs.Outcomes.{EndsAs, IsSilent, IsUntouched, outputs};
ghost use Rattle.tide_desk.specs.Promises.{AnswersAs, objects, states};
ghost use Rattle.tide_fault.specs.declared.status.Status.{Status};

use crate::answering::answer_words;
use crate::reply::Reply;
use decimal_text::Words;
use named_files::{refuse, report};
use report_sheets::Sheet;
use std::alloc::Global;
use tide_edge::{Clock, Files, Sink};
use tide_fault::Status;

/// Answers the arguments `words`: writes the whole answer to `out`, or one line with the reason why
/// there is none to `err`, and returns the exit status, 0 to 8. A failed write to `err` doesn't change
/// the status, and nothing is tried again after a failure.
///
/// The files that the arguments name are opened in the order harmonic constants, table, zone and
/// certificate, each once, and none after a fault. Together at most the sum of their limits (67,108,864
/// bytes, but 1,048,576 for a zone and 400,000,000 for a certificate), plus 65,536 bytes for each file,
/// is read. The clock is read once, after all files, and only for the commands `clock` and `report`.
///
/// A report has the pages of those `sheets` whose words are requested, in the order of `sheets`. A
/// requested word that no sheet has is refused before any file is opened.
///
/// # Examples
/// ```
/// let words = words_of(alloc, line)?;
/// let files = vec![in alloc; pier]?;
/// let mut files = MemoryFiles::new(files, Vec::new(alloc));
/// let mut out = MemorySink::new(alloc, 4_096, 1_000_000, Vec::new(alloc))?;
/// let mut err = MemorySink::new(alloc, 4_096, 4_096, Vec::new(alloc))?;
/// let mut clock = FixedClock::new(15_791_220, Vec::new(alloc));
/// let sheets = Vec::new(alloc);
/// let status = run(
///     alloc, &words, &mut files, &mut out, &mut err, &mut clock, sheets,
/// );
/// assert_eq!(rt; status, Status::Done);
/// ```
pub fn run<F: Files, O: Sink, E: Sink, K: Clock>(
    alloc: Global,
    words: &Words,
    files: &mut F,
    out: &mut O,
    err: &mut E,
    clock: &mut K,
    sheets: Vec<Box<dyn Sheet>>,
) -> Status
    ensures { AnswersAs (states F.state O.state E.state K.state) (map sheet_spec sheets.items) words.now result
        (objects files.old out.old err.old clock.old) (objects files.new out.new err.new clock.new) }
{
    match answer_words(alloc, words, files, clock, sheets) {
        Ok(reply) => {
            let status = write_reply(&reply, out, err);
            drop(reply);
            status
        }
        Err(none) => report(alloc, none, err),
    }
}

/// Writes `reply` to `out`, or one line to `err` if that fails, and returns the exit status.
fn write_reply<O: Sink, E: Sink>(reply: &Reply, out: &mut O, err: &mut E) -> Status
    ensures ends { EndsAs (Ok reply.now) result
        (outputs (O.state out.old) (E.state err.old)) (outputs (O.state out.new) (E.state err.new)) }
    ensures read { is_read_fault result ≡ false }
    ensures unwritten { IsUntouched result out.old out.new }
    ensures unprinted { IsSilent result err.old err.new }
{
    match reply.write(out) {
        Ok(rejected) => judged(rejected),
        Err(_) => refuse(err, Status::WriteFault, b"write fault\n"),
    }
}

/// Returns the status of a run with an answer that was written: rejected if `rejected` is true, else
/// done.
fn judged(rejected: bool) -> Status
    ensures { result ≡ (if rejected then Status.Rejected else Status.Done) }
{
    if rejected {
        Status::Rejected
    } else {
        Status::Done
    }
}
