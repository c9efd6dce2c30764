//! Each call to files, clock and outputs fails in turn. Expected texts were computed by an independent
//! program.

use super::*;

const CERTIFICATE: &str = "tide certificate 2\nstation Pier\nbegin 2000-01-10T00:00Z\n\
    end 2000-01-10T00:08Z\nmark none\ntrack turn\ns\ns\nq 2\nq 4\ndone\n";

const DOCKS: &str = "name,reference,high_add,low_add,high_times,low_times,high_plus,low_plus\n\
    Dock,Pier,0:30,-0:10,1.1,0.9,0.1,0\nOuter,Pier,0:30,0:30,2,2,0.5,0.5\n";

/// A time zone's file (RFC 8536): one hour ahead, always.
const HOUR_AHEAD: &[u8] =
    b"TZif2\0\0\0\0\0\0\0\0\0\0\0\0\0\0\0\0\0\0\0\0\0\0\0\0\0\0\0\0\0\0\0\0\0\0\x01\0\0\0\x01\0\0\0\0\0\0\0\
    TZif2\0\0\0\0\0\0\0\0\0\0\0\0\0\0\0\0\0\0\0\0\0\0\0\0\0\0\0\0\0\0\0\0\0\0\x01\0\0\0\x04\0\0\x0e\x10\0\0CET\0\nCET-1\n";

/// Arguments, the number of their calls to the files, and their output.
const WHOLE: &[(&str, u64, &str)] = &[
    (PREDICT, 3, DAY),
    (
        "certify|file=pier.txt|station=Pier|begin=2000-01-10T00:00Z|end=2000-01-10T00:08Z",
        3,
        CERTIFICATE,
    ),
    (
        "check|file=pier.txt|certificate=cert",
        6,
        "Accepted\nPier\n",
    ),
    (
        "predict|file=pier.txt|offsets=o.csv|station=Dock|begin=2000-01-10T00:00Z|end=2000-01-11T00:00Z",
        6,
        "Dock\n2000-01-10 00:29 UTC       1.20 feet  High Tide\n\
         2000-01-10 05:50 UTC      -0.90 feet  Low Tide\n\
         2000-01-10 12:29 UTC       1.20 feet  High Tide\n\
         2000-01-10 17:50 UTC      -0.90 feet  Low Tide\n",
    ),
    (
        "predict|file=pier.txt|zone=@hour|station=Pier|begin=2000-01-10T12:00Z|end=2000-01-11T00:00Z",
        6,
        "Pier\n2000-01-10 19:00 +01:00      -1.00 feet  Low Tide\n\
         2000-01-11 00:59 +01:00       1.00 feet  High Tide\n",
    ),
    (
        "predict|file=pier.txt|station=Pier|begin=2000-01-10T11:00Z|end=2000-01-10T13:00Z|layout=csv",
        3,
        "station,moment,local,event,level,units\n\
         Pier,2000-01-10T11:59Z,2000-01-10 11:59,High Tide,0.999962,feet\n",
    ),
];

/// Arguments, the write of `out` that fails, the status, and the line on `err`.
const LINES: &[(&str, u64, u8, &str)] = &[
    ("predict|x", 0, 2, "words: pair 1 is not key=value\n"),
    (NO_STATION, 0, 4, "refused: no station\n"),
    (LATE, 0, 4, OUT_OF_YEARS),
    ("stations|file=quay.txt", 0, 6, "read fault\n"),
    (PREDICT, 1, 7, "write fault\n"),
];

/// All files of the runs. A write takes at most ten bytes.
const ALL: Case<'static> = Case {
    more: &[
        ("o.csv", Source::Line(DOCKS, 0, "")),
        ("cert", Source::Line(CERTIFICATE, 0, "")),
        ("hour", Source::Bytes(HOUR_AHEAD)),
    ],
    most: 10,
    ..CASE
};

/// A run in which the call with the number `files` to the files fails, if it makes so many.
fn failing_call(
    &(words, calls, out): &(&'static str, u64, &'static str),
    files: u64,
) -> Case<'static> {
    let fails = Fails { files, ..NONE };
    let (status, out, err) = if files <= calls {
        (6, "", "read fault\n")
    } else {
        (0, out, "")
    };
    Case {
        fails,
        words,
        status,
        out,
        err,
        ..ALL
    }
}

#[test]
fn each_call_of_the_files_may_fail(rt: HostRuntime) {
    for row in WHOLE {
        for files in 1..8 {
            judge(&rt, rt.alloc(), &failing_call(row, files));
        }
    }
}

/// Asserts that `out` has a part of `text`: at most ten bytes more than the writes `before` it, or none
/// if the first write failed.
fn assert_cut(rt: &impl Abort, out: &[u8], text: &[u8], before: Option<usize>, case: &str) {
    assert_holds(rt, out.len() < text.len() && text.starts_with(out), case);
    let is_next = match before {
        Some(before) => out.len() > before && out.len() - before <= 10,
        None => out.is_empty(),
    };
    assert_holds(rt, is_next, case);
}

/// Asserts what a run with a write that fails has left, and returns the number of bytes written
/// before it: None if no write failed.
fn written_in(
    rt: &impl Abort,
    status: u8,
    desk: &Desk,
    case: &Case<'_>,
    before: Option<usize>,
) -> Option<usize> {
    let out = desk.out.bytes();
    if status == 0 {
        assert_bytes(rt, out, case.out.as_bytes(), case.words);
        return None;
    }
    assert_cut(rt, out, case.out.as_bytes(), before, case.words);
    assert_count(rt, usize::from(status), 7, case.words);
    assert_bytes(rt, desk.err.bytes(), b"write fault\n", case.words);
    Some(out.len())
}

fn written_before(
    rt: &impl Abort,
    alloc: Global,
    case: &Case<'_>,
    before: Option<usize>,
) -> Option<usize> {
    let mut desk = desk_of(rt, alloc, case);
    let status = run_case(rt, alloc, case, &mut desk);
    written_in(rt, status, &desk, case, before)
}

fn fail_each_write(
    rt: &impl Abort,
    alloc: Global,
    &(words, _, text): &(&'static str, u64, &'static str),
) {
    let mut before = None;
    for out in 1..100 {
        let fails = Fails { out, ..NONE };
        let case = Case {
            fails,
            words,
            out: text,
            ..ALL
        };
        before = written_before(rt, alloc, &case, before);
        if before.is_none() {
            return;
        }
    }
    assert_holds(rt, false, words);
}

#[test]
fn each_write_may_fail(rt: HostRuntime) {
    for row in WHOLE {
        fail_each_write(&rt, rt.alloc(), row);
    }
}

/// A run with a line that is cut: `err` fails after ten times `accepted` bytes of it.
fn cut_line(
    &(words, out, status, err): &(&'static str, u64, u8, &'static str),
    accepted: u8,
) -> Case<'static> {
    Case {
        fails: Fails {
            out,
            err: u64::from(accepted) + 1,
            ..NONE
        },
        words,
        status,
        out: "",
        err,
        most_err: usize::from(accepted) * 10,
        ..ALL
    }
}

#[test]
fn a_line_that_fails_changes_no_status(rt: HostRuntime) {
    for row in LINES {
        // a line has at most 90 bytes
        for accepted in 0..10_u8 {
            judge(&rt, rt.alloc(), &cut_line(row, accepted));
        }
    }
}
