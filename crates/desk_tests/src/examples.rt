//! The example in the documentation of `run`, over a file in memory.

use crate::asserts::assert_bytes;
use decimal_text::{Bytes, Text};
use sample_tides::{DAY, PIER, words_of};
use std::alloc::Global;
use std::process::Abort;
use tide_answer::Status;
use tide_desk::run;
use tide_edge::{FixedClock, MemoryFiles, MemorySink, NamedFile};

fn pier(rt: &impl Abort, alloc: Global) -> NamedFile {
    let name = Text::from_str(alloc, "pier.txt").expect(rt, "a name");
    let bytes = PIER.as_bytes().to_vec(alloc).expect(rt, "a text");
    NamedFile {
        name,
        bytes: Bytes::from_vec(bytes),
    }
}

#[test]
fn a_command_line_is_answered(rt: HostRuntime) {
    let alloc = rt.alloc();
    let pier = pier(&rt, alloc);
    let line = "predict|file=pier.txt|station=Pier|begin=2000-01-10T00:00Z|end=2000-01-11T00:00Z";
    let words = words_of(alloc, line).expect(&rt, "words");
    let files = vec![in alloc; pier].expect(&rt, "files");
    let mut files = MemoryFiles::new(files, Vec::new(alloc));
    let mut out = MemorySink::new(alloc, 4_096, 1_000_000, Vec::new(alloc)).expect(&rt, "a sink");
    let mut err = MemorySink::new(alloc, 4_096, 4_096, Vec::new(alloc)).expect(&rt, "a sink");
    let mut clock = FixedClock::new(15_791_220, Vec::new(alloc));
    let sheets = Vec::new(alloc);
    let status = run(
        alloc, &words, &mut files, &mut out, &mut err, &mut clock, sheets,
    );
    assert_eq!(rt; status, Status::Done);
    assert_bytes(&rt, out.bytes(), DAY.as_bytes(), line);
}
