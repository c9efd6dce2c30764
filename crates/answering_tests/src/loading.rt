//! Harmonic constants, loaded from files in memory.

ghost use Rattle.std.specs.Prelude.{◌≤◌};
ghost use Rattle.decimal_text.specs.declared.limits.TheConstants.{MOST_BYTES};

use decimal_text::{Bytes, MOST_BYTES, Text};
use harmonics_text::{BookFault, Why};
use named_files::LoadFault;
use std::alloc::{AllocError, Global};
use std::process::Abort;
use tide_answer::load_book;
use tide_edge::{MemoryFiles, NamedFile};

const PIER: &[u8] = b"1\nS2 30\n1999\n3\nS2\n0 0 0\n*END*\n3\nS2\n1 1 1\n*END*\n\
    Pier\n0:00 :UTC\n0 feet\nS2 1 0\n";

const BAD: &[u8] = b"1\nS2 30,0\n1999\n";

const FAULT: LoadFault = LoadFault::Book(BookFault::At {
    line: 2,
    why: Why::BadNumber,
});

/// Returns the harmonics file after a long comment.
fn long_file(alloc: Global) -> Result<Vec<u8>, AllocError> {
    let mut long = vec![in alloc; b'#'; 131_072]?;
    long.push(b'\n')?;
    long.extend_from_slice(PIER)?;
    Ok(long)
}

/// Appends the file `name` to `files`.
fn add_file(rt: &impl Abort, alloc: Global, files: &mut Vec<NamedFile>, name: &str, bytes: &[u8]) {
    let name = Text::from_str(alloc, name).expect(rt, "a name");
    let bytes = Bytes::from_vec(bytes.to_vec(alloc).expect(rt, "a text"));
    files.push(NamedFile { name, bytes }).expect(rt, "files");
}

/// Appends the file `pier`, a bad one, and one of three pieces.
fn add_files(rt: &impl Abort, alloc: Global, files: &mut Vec<NamedFile>) {
    add_file(rt, alloc, files, "pier", PIER);
    add_file(rt, alloc, files, "bad", BAD);
    let long = long_file(alloc).expect(rt, "a long text");
    add_file(rt, alloc, files, "long", &long);
}

fn folder(rt: &impl Abort, alloc: Global, failing: u64) -> MemoryFiles {
    let fails = [failing].to_vec(alloc).expect(rt, "a schedule");
    let mut files = Vec::new(alloc);
    add_files(rt, alloc, &mut files);
    MemoryFiles::new(files, fails)
}

/// Returns the number of stations of the file `name`.
fn stations_loaded(
    alloc: Global,
    files: &mut MemoryFiles,
    name: &str,
    limit: u64,
) -> Result<usize, LoadFault>
    requires { limit ≤ MOST_BYTES }
{
    let name = Text::from_str(alloc, name)?;
    let book = load_book(alloc, files, &name, limit)?;
    Ok(book.stations.as_slice().len())
}

/// A file, a limit, the call that fails, and the number of stations or the fault.
static LOADINGS: &[(&str, u64, u64, Result<usize, LoadFault>)] = &[
    ("pier", MOST_BYTES as u64, 0, Ok(1)),
    ("pier", 10, 0, Err(LoadFault::TooLong)),
    ("quay", 10, 0, Err(LoadFault::Failed)),
    ("long", 140_000, 0, Ok(1)),
    ("long", 131_072, 0, Err(LoadFault::TooLong)),
    ("long", 140_000, 4, Err(LoadFault::Failed)),
    ("bad", 15, 0, Err(FAULT)),
    ("bad", 14, 0, Err(LoadFault::TooLong)),
    ("bad", 15, 1, Err(LoadFault::Failed)),
    ("bad", 15, 3, Err(LoadFault::Failed)),
    ("bad", 15, 4, Err(FAULT)),
];

/// Returns true if `expected` is what the file `name` of the folder loads.
fn is_loaded(
    rt: &impl Abort,
    alloc: Global,
    name: &str,
    limit: u64,
    failing: u64,
    expected: &Result<usize, LoadFault>,
) -> bool {
    if limit > MOST_BYTES as u64 {
        return false;
    }
    let mut files = folder(rt, alloc, failing);
    stations_loaded(alloc, &mut files, name, limit) == *expected
}

#[test]
fn a_book_is_loaded_in_pieces(rt: HostRuntime) {
    for (place, (name, limit, failing, expected)) in LOADINGS.iter().enumerate() {
        let is_loaded = is_loaded(&rt, rt.alloc(), name, *limit, *failing, expected);
        assert!(rt; is_loaded, "row {place}");
    }
}
