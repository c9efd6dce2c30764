//! The output of one run as the certificate of the next one. Expected texts were computed by an
//! independent program.

use super::*;
use tide_desk::{
    runs_are_complete, runs_end_by_their_answers, valid_certificates_are_accepted,
    valid_peaks_are_accepted, what_peak_certified_is_checked, what_was_certified_is_checked,
    worked_runs,
};

/// Arguments that certify, arguments that check, and the output of the check.
const PASSED_ON: &[(&str, &str, &str)] = &[
    (
        "certify|file=pier.txt|station=Pier|begin=2000-01-10T00:00Z|end=2000-01-10T12:00Z",
        "check|file=pier.txt|certificate=cert",
        "Accepted\nPier\n\
         2000-01-10 06:00 UTC      -1.00 feet  Low Tide\n\
         2000-01-10 11:59 UTC       1.00 feet  High Tide\n",
    ),
    (
        "peak|file=pier.txt|station=Pier|begin=2000-01-10T00:00Z|end=2000-01-11T00:00Z",
        "peakcheck|file=pier.txt|certificate=cert",
        "Accepted\nPier\nHighest 2000-01-10 00:00 UTC       1.00 feet\n",
    ),
];

/// Asserts that the output of `certify` is accepted by `check`.
fn pass_on(rt: &impl Abort, alloc: Global, &(certify, check, text): &(&str, &str, &str)) {
    let case = Case {
        words: certify,
        most: 10,
        ..CASE
    };
    let mut desk = desk_of(rt, alloc, &case);
    let status = run_case(rt, alloc, &case, &mut desk);
    assert_count(rt, usize::from(status), 0, certify);
    let checked = Case {
        more: &[("cert", Source::Bytes(desk.out.bytes()))],
        words: check,
        out: text,
        ..case
    };
    judge(rt, alloc, &checked);
}

#[test]
fn what_was_written_is_accepted(rt: HostRuntime) {
    for row in PASSED_ON {
        pass_on(&rt, rt.alloc(), row);
    }
}

#[test]
fn the_laws_hold_in_memory(_rt: HostRuntime) {
    runs_end_by_their_answers::<MemoryFiles, MemorySink, MemorySink, FixedClock>();
    runs_are_complete::<MemoryFiles, MemorySink, MemorySink, FixedClock>();
    valid_certificates_are_accepted::<MemoryFiles, MemorySink, MemorySink, FixedClock>();
    valid_peaks_are_accepted::<MemoryFiles, MemorySink, MemorySink, FixedClock>();
    passed_on_in_memory();
    worked_runs();
}

fn passed_on_in_memory() {
    what_was_certified_is_checked::<
        MemoryFiles,
        MemorySink,
        MemorySink,
        FixedClock,
        MemoryFiles,
        MemorySink,
        MemorySink,
        FixedClock,
    >();
    what_peak_certified_is_checked::<
        MemoryFiles,
        MemorySink,
        MemorySink,
        FixedClock,
        MemoryFiles,
        MemorySink,
        MemorySink,
        FixedClock,
    >();
}
