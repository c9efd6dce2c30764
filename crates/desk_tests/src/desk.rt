//! Whole runs over files, a clock and sinks in memory.

mod failing;
mod files;
mod passing_on;
mod refusals;
mod reports;
mod rows;

use crate::asserts::{assert_bytes, assert_count, assert_holds};
use crate::stamp::Stamp;
use decimal_text::{Bytes, Text};
use ical_sheet::IcalSheet;
use report_sheets::{FirstLines, Ranges, Sheet, Tally};
use rows::*;
use sample_tides::{DAY, PIER, words_of};
use std::alloc::{AllocError, Global};
use std::process::Abort;
use tide_answer::Status;
use tide_desk::run;
use tide_edge::{FixedClock, MemoryFiles, MemorySink, NamedFile};

/// A file: a text with another line in place of one of its lines, which are counted from 1 (line 0
/// changes nothing), a text after so many bytes `#` that it has this length, or bytes.
#[derive(Clone, Copy)]
enum Source<'a> {
    Line(&'a str, usize, &'a str),
    Behind(usize, &'a str),
    Bytes(&'a [u8]),
}

/// The numbers of the calls that fail, counted from 1 for each object.
#[derive(Clone, Copy)]
struct Fails {
    files: u64,
    out: u64,
    err: u64,
    clock: u64,
}

const NONE: Fails = Fails {
    files: 0,
    out: 0,
    err: 0,
    clock: 0,
};

/// A run: the file `pier.txt` and the other files, the calls that fail, the arguments, whether the sheet
/// `first` accepts two events rather than ten, the most bytes that a write accepts, and the resulting
/// status and texts. At most the given number of bytes of the second text are written.
#[derive(Clone, Copy)]
struct Case<'a> {
    file: Source<'a>,
    more: &'a [(&'a str, Source<'a>)],
    fails: Fails,
    words: &'a str,
    is_short: bool,
    most: u64,
    status: u8,
    out: &'a str,
    err: &'a str,
    most_err: usize,
}

/// A day of the pier.
const CASE: Case<'static> = Case {
    file: Source::Line(PIER, 0, ""),
    more: &[],
    fails: NONE,
    words: PREDICT,
    is_short: false,
    most: 4096,
    status: 0,
    out: DAY,
    err: "",
    most_err: 4096,
};

/// The files of a run, its outputs, and its clock.
#[derive(Drop)]
struct Desk {
    files: MemoryFiles,
    out: MemorySink,
    err: MemorySink,
    clock: FixedClock,
}

fn with_line(alloc: Global, text: &str, line: usize, other: &str) -> Result<Vec<u8>, AllocError> {
    let mut bytes = Vec::new(alloc);
    for (i, old) in text.lines().enumerate() {
        let new = if i < line && line - i == 1 {
            other
        } else {
            old
        };
        bytes.extend_from_slice(new.as_bytes())?;
        bytes.extend_from_slice(b"\n")?;
    }
    Ok(bytes)
}

fn behind(alloc: Global, length: usize, text: &str) -> Result<Vec<u8>, AllocError> {
    let mut bytes = vec![in alloc; b'#'; length.saturating_sub(text.len())]?;
    bytes.extend_from_slice(text.as_bytes())?;
    Ok(bytes)
}

fn bytes_of(alloc: Global, source: &Source<'_>) -> Result<Vec<u8>, AllocError> {
    match *source {
        Source::Line(text, line, other) => with_line(alloc, text, line, other),
        Source::Behind(length, text) => behind(alloc, length, text),
        Source::Bytes(bytes) => bytes.to_vec(alloc),
    }
}

fn file_of(rt: &impl Abort, alloc: Global, name: &str, source: &Source<'_>) -> NamedFile {
    let name = Text::from_str(alloc, name).expect(rt, "a name");
    let bytes = bytes_of(alloc, source).expect(rt, "a text");
    NamedFile {
        name,
        bytes: Bytes::from_vec(bytes),
    }
}

fn files_of(rt: &impl Abort, alloc: Global, case: &Case<'_>) -> Vec<NamedFile> {
    let mut held = Vec::new(alloc);
    held.push(file_of(rt, alloc, "pier.txt", &case.file))
        .expect(rt, "files");
    for (name, source) in case.more {
        held.push(file_of(rt, alloc, name, source))
            .expect(rt, "files");
    }
    held
}

/// Returns the schedule of an object whose call with this number fails.
fn schedule_of(rt: &impl Abort, alloc: Global, fails: u64) -> Vec<u64> {
    [fails].to_vec(alloc).expect(rt, "a schedule")
}

/// Returns an output that takes at most `most` bytes in a write.
fn sink_of(rt: &impl Abort, alloc: Global, most: u64, capacity: u64, fails: u64) -> MemorySink {
    let fails = schedule_of(rt, alloc, fails);
    MemorySink::new(alloc, most.max(1), capacity, fails).expect(rt, "a sink")
}

/// Returns the files and the outputs of a case, and a clock at 2000-01-10T03:00Z.
fn desk_of(rt: &impl Abort, alloc: Global, case: &Case<'_>) -> Desk {
    let fails = case.fails;
    let files = files_of(rt, alloc, case);
    Desk {
        files: MemoryFiles::new(files, schedule_of(rt, alloc, fails.files)),
        out: sink_of(rt, alloc, case.most, 1_000_000, fails.out),
        err: sink_of(rt, alloc, case.most, 4096, fails.err),
        clock: FixedClock::new(15_791_220, schedule_of(rt, alloc, fails.clock)),
    }
}

/// Adds a sheet of each kind.
fn add_sheets(
    alloc: Global,
    is_short: bool,
    sheets: &mut Vec<Box<dyn Sheet>>,
) -> Result<(), AllocError> {
    let first = if is_short { 2 } else { 10 };
    sheets.push(Box::new(alloc, Tally::new(alloc, 1_000_000))?)?;
    sheets.push(Box::new(alloc, Ranges::new(alloc, 1_000_000))?)?;
    sheets.push(Box::new(alloc, FirstLines::new(alloc, first))?)?;
    sheets.push(Box::new(alloc, IcalSheet::new(alloc, 1))?)?;
    sheets.push(Box::new(alloc, Stamp::new(alloc, 4))?)?;
    Ok(())
}

fn run_case(rt: &impl Abort, alloc: Global, case: &Case<'_>, desk: &mut Desk) -> u8 {
    let words = words_of(alloc, case.words).expect(rt, "words");
    let mut sheets = Vec::new(alloc);
    add_sheets(alloc, case.is_short, &mut sheets).expect(rt, "sheets");
    let (files, out, err) = (&mut desk.files, &mut desk.out, &mut desk.err);
    run(alloc, &words, files, out, err, &mut desk.clock, sheets).number()
}

/// Asserts the status of a run, and what it wrote to `out` and to `err`.
fn assert_left(rt: &impl Abort, status: u8, desk: &Desk, case: &Case<'_>) {
    let err = case.err.as_bytes();
    assert_count(
        rt,
        usize::from(status),
        usize::from(case.status),
        case.words,
    );
    assert_bytes(rt, desk.out.bytes(), case.out.as_bytes(), case.words);
    assert_bytes(
        rt,
        desk.err.bytes(),
        &err[..case.most_err.min(err.len())],
        case.words,
    );
}

fn judge(rt: &impl Abort, alloc: Global, case: &Case<'_>) {
    let mut desk = desk_of(rt, alloc, case);
    let status = run_case(rt, alloc, case, &mut desk);
    assert_left(rt, status, &desk, case);
}

fn judge_all(rt: &impl Abort, alloc: Global, cases: &[Case<'_>]) {
    for case in cases {
        judge(rt, alloc, case);
    }
}

#[test]
fn runs_have_their_outcomes(rt: HostRuntime) {
    judge_all(&rt, rt.alloc(), &ANSWERS);
    judge_all(&rt, rt.alloc(), &refusals::REFUSALS);
    judge_all(&rt, rt.alloc(), &files::FILES);
    judge_all(&rt, rt.alloc(), &reports::REPORTS);
}

#[test]
fn files_have_limits(rt: HostRuntime) {
    judge_all(&rt, rt.alloc(), &files::LIMITS);
}
