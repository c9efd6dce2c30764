//! Files, clocks and sinks in memory and of the machine.

ghost use Rattle.std.specs.Prelude.{◌≡◌, ◌≢◌, [], MatchResult, OnErr, Ok, Err};
ghost use Rattle.tide_edge.specs.Memory.{folder_of};
ghost use Rattle.tide_edge.specs.Whole.{whole};

use crate::asserts::assert_holds;
use decimal_text::{Bytes, Text};
use std::alloc::{AllocError, Global};
use std::fs::OpenOptions;
use std::io;
use std::process::Abort;
use std::test::Fail;
use tide_edge::{
    Clock, Failed, Files, FixedClock, HostClock, HostFiles, HostSink, MemoryFiles, MemorySink,
    NamedFile, ReadAllFault, WriteFailed, read_all, write_all,
};

const PIER: [u8; 10] = *b"pier files";

/// Appends the file `name` to `files`.
pub fn add_file(
    rt: &impl Abort,
    alloc: Global,
    files: &mut Vec<NamedFile>,
    name: &str,
    bytes: &[u8],
) {
    let name = Text::from_str(alloc, name).expect(rt, "a name");
    let bytes = Bytes::from_vec(bytes.to_vec(alloc).expect(rt, "a text"));
    files.push(NamedFile { name, bytes }).expect(rt, "files");
}

/// Appends the file `pier`, another one that can't be opened, and a long one.
fn add_files(rt: &impl Abort, alloc: Global, files: &mut Vec<NamedFile>) {
    add_file(rt, alloc, files, "pier", &PIER);
    add_file(rt, alloc, files, "pier", b"hidden");
    let long = vec![in alloc; 7; 131_073].expect(rt, "a long text");
    add_file(rt, alloc, files, "long", &long);
}

fn folder(rt: &impl Abort, alloc: Global, fails: &[u64]) -> MemoryFiles {
    let fails = fails.to_vec(alloc).expect(rt, "a schedule");
    let mut files = Vec::new(alloc);
    add_files(rt, alloc, &mut files);
    MemoryFiles::new(files, fails)
}

/// Reads from steady files in memory. Its contract says what a caller knows of the result.
fn read_steady(
    alloc: Global,
    files: &mut MemoryFiles,
    name: &Text,
    limit: u64,
) -> Result<Bytes, ReadAllFault>
    requires { files.old.fails ≡ [] }
    ensures { result ≢ Err ReadAllFault.NoMemory → result ≡ whole limit (folder_of files.old.files name.now) }
{
    read_all(alloc, files, name, limit)
}

/// Returns the number of bytes of the file `name`.
fn length_read<F: Files>(
    alloc: Global,
    files: &mut F,
    name: &str,
    limit: u64,
) -> Result<usize, ReadAllFault> {
    let name = Text::from_str(alloc, name)?;
    let bytes = read_all(alloc, files, &name, limit)?;
    Ok(bytes.as_slice().len())
}

/// A name, the limit, the call that fails, and the number of bytes or the fault.
static MEMORY_FILES: &[(&str, u64, u64, Result<usize, ReadAllFault>)] = &[
    ("pier", 10, 0, Ok(10)),
    ("pier", 9, 0, Err(ReadAllFault::TooLong)),
    ("quay", 10, 0, Err(ReadAllFault::Failed)),
    ("long", 131_073, 0, Ok(131_073)),
    ("long", 131_072, 0, Err(ReadAllFault::TooLong)),
    ("pier", 10, 1, Err(ReadAllFault::Failed)),
    ("pier", 10, 2, Err(ReadAllFault::Failed)),
    ("pier", 10, 3, Err(ReadAllFault::Failed)),
    ("pier", 10, 4, Ok(10)),
    ("pier", 9, 3, Err(ReadAllFault::TooLong)),
];

/// Returns true if `expected` is what the file `name` of the folder gives.
fn is_read(
    rt: &impl Abort,
    alloc: Global,
    name: &str,
    limit: u64,
    failing: u64,
    expected: &Result<usize, ReadAllFault>,
) -> bool {
    let mut files = folder(rt, alloc, &[failing]);
    length_read(alloc, &mut files, name, limit) == *expected
}

#[test]
fn a_file_is_read_whole_or_not_at_all(rt: HostRuntime) {
    for (place, (name, limit, failing, expected)) in MEMORY_FILES.iter().enumerate() {
        let is_read = is_read(&rt, rt.alloc(), name, *limit, *failing, expected);
        assert_holds(&rt, is_read, place);
    }
}

/// Returns true if the file `name` of `files` has the pier's bytes.
fn has_bytes(alloc: Global, files: &mut MemoryFiles, name: &Text) -> bool {
    match read_all(alloc, files, name, 10) {
        Ok(bytes) => bytes.as_slice() == PIER.as_slice(),
        Err(_) => false,
    }
}

/// Returns true if the file `pier` of steady files has its bytes.
fn are_known(rt: &impl Abort, alloc: Global) -> bool {
    let name = Text::from_str(alloc, "pier").expect(rt, "a name");
    let mut files = folder(rt, alloc, &[]);
    has_bytes(alloc, &mut files, &name)
}

#[test]
fn the_bytes_of_steady_files_are_known(rt: HostRuntime) {
    assert!(rt; are_known(&rt, rt.alloc()));
}

/// Writes to `sink`, and returns the number of bytes sent if a call fails.
fn count_sent(sink: &mut MemorySink) -> Option<u64> {
    match write_all(sink, &PIER) {
        Ok(()) => None,
        Err(fault) => Some(fault.sent),
    }
}

fn has_taken(sink: &MemorySink, count: u64) -> bool {
    sink.bytes().len() as u64 == count && PIER.starts_with(sink.bytes())
}

/// The capacity of a sink, the call that fails, and the number of bytes sent before a failure.
static SINKS: &[(u64, u64, Option<u64>)] = &[
    (10, 0, None),
    (10, 1, Some(0)),
    (10, 2, Some(3)),
    (10, 3, Some(6)),
    (10, 4, Some(9)),
    (10, 5, None),
    (7, 0, Some(7)),
    (0, 0, Some(0)),
];

/// Returns a sink that accepts `most` bytes in a write and `capacity` in all, and at which the call
/// with the number `failing` fails.
fn sink(alloc: Global, most: u64, capacity: u64, failing: u64) -> Result<MemorySink, AllocError> {
    MemorySink::new(alloc, most.max(1), capacity, [failing].to_vec(alloc)?)
}

/// Returns true if such a sink has accepted `sent` bytes, or all.
fn is_sent(alloc: Global, capacity: u64, failing: u64, sent: Option<u64>) -> bool {
    match sink(alloc, 3, capacity, failing) {
        Ok(mut sink) => count_sent(&mut sink) == sent && has_taken(&sink, sent.unwrap_or(10)),
        Err(_) => false,
    }
}

#[test]
fn a_failed_write_is_the_last(rt: HostRuntime) {
    for (place, (capacity, failing, sent)) in SINKS.iter().enumerate() {
        assert_holds(&rt, is_sent(rt.alloc(), *capacity, *failing, *sent), place);
    }
}

#[test]
fn an_empty_write_calls_nothing(rt: HostRuntime) -> Result<(), AllocError> {
    let mut closed = sink(rt.alloc(), 1, 0, 1)?;
    assert!(rt; write_all(&mut closed, &[]) == Ok(()));
    Ok(())
}

fn check_clock(rt: &impl Abort, clock: &mut FixedClock) {
    assert_holds(rt, clock.minute() == Ok(-10_000_000_000), "first call");
    assert_holds(rt, clock.minute() == Err(Failed), "second call");
    assert_holds(rt, clock.minute() == Ok(-10_000_000_000), "third call");
}

#[test]
fn a_fixed_clock_fails_as_required(rt: HostRuntime) -> Result<(), AllocError> {
    let fails = [2].to_vec(rt.alloc())?;
    check_clock(&rt, &mut FixedClock::new(-10_000_000_000, fails));
    Ok(())
}

/// A name, and the number of bytes or the fault.
const MACHINE_FILES: &[(&str, Result<usize, ReadAllFault>)] = &[
    ("/dev/null", Ok(0)),
    ("/dev/zero", Err(ReadAllFault::TooLong)),
    ("/", Err(ReadAllFault::Failed)),
    ("/no/such/file", Err(ReadAllFault::Failed)),
];

#[test]
fn the_files_of_the_machine_are_read(rt: HostRuntime) -> Result<(), Fail> {
    let mut files = HostFiles::new(rt.clone()?);
    for (name, expected) in MACHINE_FILES {
        let read = length_read(rt.alloc(), &mut files, name, 1_000_000);
        assert_holds(&rt, read == *expected, *name);
    }
    Ok(())
}

#[test]
fn a_closed_pipe_fails(rt: HostRuntime) -> Result<(), Fail> {
    let (reader, writer) = io::pipe(&rt)?;
    let mut pipe = HostSink::new(writer);
    assert!(rt; write_all(&mut pipe, &PIER) == Ok(()));
    drop(reader);
    assert!(rt; write_all(&mut pipe, &PIER) == Err(WriteFailed { sent: 0 }));
    Ok(())
}

#[test]
fn a_full_disk_fails(rt: HostRuntime) -> Result<(), Fail> {
    let full = OpenOptions::new().write(true).open(&rt, "/dev/full")?;
    let mut full = HostSink::new(full);
    assert!(rt; write_all(&mut full, &PIER) == Err(WriteFailed { sent: 0 }));
    Ok(())
}

#[test]
fn the_streams_of_the_machine_are_written(rt: HostRuntime) {
    assert!(rt; write_all(&mut HostSink::new(rt.stdout()), b"\n") == Ok(()));
    assert!(rt; write_all(&mut HostSink::new(rt.stderr()), b"\n") == Ok(()));
}

#[test]
fn the_clock_of_the_machine_is_past_2026(rt: HostRuntime) {
    let minute = HostClock::new(rt).minute();
    assert!(rt; minute.is_ok_and(|minute| minute > 29_000_000 && minute < 10_000_000_000));
}
