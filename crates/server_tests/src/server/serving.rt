//! The server over a port in memory. Expected replies to requests were computed by an independent
//! program.

ghost use Rattle.std.specs.Prelude.{◌≡◌, None};
ghost use Rattle.tide_edge.specs.Adapters.{held_by};

use super::coming::{Coming, requests_of};
use super::serving_texts::*;
use super::with_fields;
use crate::asserts::{assert_bytes, assert_count, assert_holds};
use decimal_text::{Bytes, Text};
use sample_tides::{PIER, words_of};
use std::alloc::Global;
use std::process::Abort;
use tide_answer::Status;
use tide_edge::{Clock, FixedClock, MemoryDoor, MemoryFiles, MemorySink, NamedFile};
use tide_server::serve;

/// The numbers of the calls that fail, counted from 1 for each object.
#[derive(Clone, Copy)]
pub(super) struct Fails {
    files: u64,
    door: u64,
    err: u64,
    clock: u64,
}

pub(super) const NONE: Fails = Fails {
    files: 0,
    door: 0,
    err: 0,
    clock: 0,
};

/// The result of a server: its status, its port and its standard error.
#[derive(Drop)]
pub(super) struct Outcome {
    pub status: Status,
    pub door: MemoryDoor,
    err: MemorySink,
}

/// The names and texts of the files.
const FILES: &[(&str, &str)] = &[
    ("pier.txt", PIER),
    ("short.txt", SHORT),
    ("empty.csv", ""),
    ("dock.csv", DOCK),
];

fn named(rt: &impl Abort, alloc: Global, name: &str, text: &str) -> NamedFile {
    let name = Text::from_str(alloc, name).expect(rt, "a name");
    let bytes = text.as_bytes().to_vec(alloc).expect(rt, "a text");
    NamedFile {
        name,
        bytes: Bytes::from_vec(bytes),
    }
}

fn held(rt: &impl Abort, alloc: Global) -> Vec<NamedFile> {
    let mut files = Vec::new(alloc);
    for &(name, text) in FILES {
        files.push(named(rt, alloc, name, text)).expect(rt, "files");
    }
    files
}

fn files_of(rt: &impl Abort, alloc: Global, fails: u64) -> MemoryFiles {
    let fails = [fails].to_vec(alloc).expect(rt, "a schedule");
    MemoryFiles::new(held(rt, alloc), fails)
}

fn err_of(rt: &impl Abort, alloc: Global, fails: u64) -> MemorySink {
    let fails = [fails].to_vec(alloc).expect(rt, "a schedule");
    MemorySink::new(alloc, 4096, 4096, fails).expect(rt, "a sink")
}

/// Returns a port that receives the requests, with `capacity` bytes for all replies.
fn door_of(
    rt: &impl Abort,
    alloc: Global,
    requests: &[Coming<'_>],
    capacity: u64,
    fails: u64,
) -> MemoryDoor
    ensures { (held_by result).listener_state.port ≡ None }
{
    let fails = [fails].to_vec(alloc).expect(rt, "a schedule");
    let requests = requests_of(rt, alloc, requests);
    MemoryDoor::new(alloc, requests, capacity, fails).expect(rt, "a port")
}

/// Serves the requests, with `capacity` bytes for all replies.
pub(super) fn serve_by<K: Clock>(
    rt: &impl Abort,
    alloc: Global,
    line: &str,
    requests: &[Coming<'_>],
    capacity: u64,
    fails: Fails,
    clock: &mut K,
) -> Outcome {
    let words = words_of(alloc, line).expect(rt, "words");
    let mut files = files_of(rt, alloc, fails.files);
    let mut err = err_of(rt, alloc, fails.err);
    let mut door = door_of(rt, alloc, requests, capacity, fails.door);
    let status = serve(alloc, &words, &mut files, &mut door, &mut err, clock);
    Outcome { status, door, err }
}

/// Serves the requests with a clock at 2000-01-10T03:00Z.
pub(super) fn serve_over(
    rt: &impl Abort,
    alloc: Global,
    line: &str,
    requests: &[Coming<'_>],
    capacity: u64,
    fails: Fails,
) -> Outcome {
    let readings = [fails.clock].to_vec(alloc).expect(rt, "a schedule");
    let mut clock = FixedClock::new(15_791_220, readings);
    serve_by(rt, alloc, line, requests, capacity, fails, &mut clock)
}

fn assert_reply(rt: &impl Abort, outcome: &Outcome, i: u64, expected: Option<&str>, case: &str) {
    match outcome.door.reply(i) {
        Some(reply) => assert_bytes(rt, reply, expected.unwrap_or("none").as_bytes(), case),
        None => assert_holds(rt, expected.is_none(), case),
    }
}

/// Asserts that there are these replies, from the first on, and no further one.
fn assert_replies(rt: &impl Abort, outcome: &Outcome, replies: &[&str], case: &str) {
    for (i, reply) in replies.iter().enumerate() {
        assert_reply(rt, outcome, i as u64, Some(reply), case);
    }
    assert_reply(rt, outcome, replies.len() as u64, None, case);
}

/// Asserts the status and what was written to standard error.
fn assert_end(rt: &impl Abort, outcome: &Outcome, status: u8, printed: &str, case: &str) {
    let seen = usize::from(outcome.status.number());
    assert_count(rt, seen, usize::from(status), case);
    assert_bytes(rt, outcome.err.bytes(), printed.as_bytes(), case);
}

/// Asserts that the server has ended without a fault.
pub(super) fn assert_done(rt: &impl Abort, outcome: &Outcome, case: &str) {
    assert_end(rt, outcome, 0, NOTICE, case);
}

pub(super) const ASKED: &str = "serve|file=pier.txt";

#[test]
fn each_connection_has_its_reply(rt: HostRuntime) {
    let requests = [
        Coming::Whole(LOST),
        Coming::Whole(""),
        Coming::ByBytes(LOST),
        Coming::Whole("GET"),
    ];
    let replies = [NOT_FOUND, "", NOT_FOUND, BAD];
    assert_served(&rt, rt.alloc(), ASKED, &requests, &replies);
}

/// The arguments of a server, a request, and its reply.
const QUESTIONS: &[(&str, &str, &str)] = &[
    (ASKED, DAY, LISTED),
    (
        "serve|file=pier.txt|offsets=dock.csv",
        "GET /stations HTTP/1.1\r\nHost: a\r\n\r\n",
        "HTTP/1.1 200 OK\r\nContent-Type: text/plain; charset=utf-8\r\nContent-Length: 35\r\nConnection: close\r\n\r\n\
         Ref feet Pier\nSub feet Dock (Pier)\n",
    ),
];

/// Asserts the replies to two connections, and that there are no more.
fn assert_served(
    rt: &impl Abort,
    alloc: Global,
    words: &str,
    requests: &[Coming<'_>],
    replies: &[&str],
) {
    let outcome = serve_over(rt, alloc, words, requests, 4096, NONE);
    assert_done(rt, &outcome, words);
    assert_replies(rt, &outcome, replies, words);
}

#[test]
fn a_question_is_answered_however_it_comes(rt: HostRuntime) {
    let alloc = rt.alloc();
    for &(words, request, reply) in QUESTIONS {
        let whole = [Coming::Whole(request), Coming::Whole("")];
        assert_served(&rt, alloc, words, &whole, &[reply, ""]);
        let by_bytes = [Coming::ByBytes(request), Coming::Whole("")];
        assert_served(&rt, alloc, words, &by_bytes, &[reply, ""]);
    }
}

/// Hostile requests, and their replies.
const HOSTILE: &[(&str, &str)] = &[
    (
        "POST /check HTTP/1.1\r\nHost: a\r\nContent-Length: +5\r\n\r\n",
        BAD,
    ),
    (
        "POST /check HTTP/1.1\r\nHost: a\r\nContent-Length: 4194305\r\n\r\n",
        TOO_LARGE,
    ),
    (
        "POST /check HTTP/1.1\r\nHost: a\r\nContent-Length: 5\r\nContent-Length: 5\r\n\r\nabcde",
        BAD,
    ),
    (
        "POST /check HTTP/1.1\r\nHost: a\r\nContent-Length: 5\r\n\r\nabcd",
        BAD,
    ),
    (
        "POST /check HTTP/1.1\r\nHost: a\r\nContent-Length: 5\r\n\r\nabcde",
        NO_CERTIFICATE,
    ),
];

#[test]
fn hostile_requests_are_answered(rt: HostRuntime) {
    for &(request, expected) in HOSTILE {
        let requests = [Coming::Whole(request), Coming::Whole(LOST)];
        let replies = [expected, NOT_FOUND];
        assert_served(&rt, rt.alloc(), ASKED, &requests, &replies);
    }
}

/// Asserts that a head is too large, and that the next request has its reply.
fn assert_too_large(rt: &impl Abort, alloc: Global, head: &[u8]) {
    let requests = [Coming::Bytes(head), Coming::Whole(LOST)];
    assert_served(rt, alloc, ASKED, &requests, &[FIELDS_TOO_LARGE, NOT_FOUND]);
}

#[test]
fn heads_that_are_too_large_are_answered(rt: HostRuntime) {
    let alloc = rt.alloc();
    let head = vec![in alloc; b'a'; 8_192].expect(&rt, "a long head");
    assert_too_large(&rt, alloc, &head);
    let head = with_fields(alloc, 65).expect(&rt, "a head of many fields");
    assert_too_large(&rt, alloc, &head);
}

/// A call that fails during three connections, its name, and the status, the lines and the replies that
/// follow.
type Failing = (
    &'static str,
    Fails,
    Status,
    &'static str,
    &'static [&'static str],
);

const FAILING: &[Failing] = &[
    (
        "call 1 of door",
        Fails { door: 1, ..NONE },
        Status::ReadFault,
        "read fault\n",
        &[],
    ),
    (
        "call 2 of door",
        Fails { door: 2, ..NONE },
        Status::ReadFault,
        FAILED,
        &[],
    ),
    (
        "call 5 of door",
        Fails { door: 5, ..NONE },
        Status::ReadFault,
        FAILED,
        &[NOT_FOUND],
    ),
    (
        "call 6 of door",
        Fails { door: 6, ..NONE },
        Status::Done,
        NOTICE,
        &[NOT_FOUND, "", NOT_FOUND],
    ),
    (
        "call 7 of door",
        Fails { door: 7, ..NONE },
        Status::Done,
        NOTICE,
        &[NOT_FOUND, "", NOT_FOUND],
    ),
    (
        "call 11 of door",
        Fails { door: 11, ..NONE },
        Status::ReadFault,
        FAILED,
        &[NOT_FOUND, NOT_FOUND, NOT_FOUND],
    ),
    (
        "call 2 of clock",
        Fails { clock: 2, ..NONE },
        Status::ReadFault,
        FAILED,
        &[NOT_FOUND, ""],
    ),
    (
        "call 1 of err",
        Fails { err: 1, ..NONE },
        Status::Done,
        "",
        &[NOT_FOUND, NOT_FOUND, NOT_FOUND],
    ),
    (
        "call 1 of files",
        Fails { files: 1, ..NONE },
        Status::ReadFault,
        "read fault\n",
        &[],
    ),
];

fn assert_failed(rt: &impl Abort, outcome: &Outcome, failing: &Failing) {
    let &(case, _, status, printed, replies) = failing;
    assert_end(rt, outcome, status.number(), printed, case);
    assert_replies(rt, outcome, replies, case);
}

#[test]
fn a_failed_call_ends_what_it_is_of(rt: HostRuntime) {
    let requests = [Coming::Whole(LOST); 3];
    for failing in FAILING {
        let outcome = serve_over(&rt, rt.alloc(), ASKED, &requests, 4096, failing.1);
        assert_failed(&rt, &outcome, failing);
    }
}

#[test]
fn a_full_line_cuts_the_reply_short(rt: HostRuntime) {
    let requests = [Coming::Whole(LOST); 2];
    let outcome = serve_over(&rt, rt.alloc(), ASKED, &requests, 10, NONE);
    assert_done(&rt, &outcome, ASKED);
    assert_replies(&rt, &outcome, &["HTTP/1.1 4", ""], ASKED);
}

/// Arguments, and the status and the line that follow.
const REFUSED: &[(&str, u8, &str)] = &[
    ("", 2, "words: no command\n"),
    ("predict|file", 2, "words: unknown command\n"),
    ("tides", 2, "words: unknown command\n"),
    ("serve", 2, "words: file is missing\n"),
    ("serve|file", 2, "words: pair 1 is not key=value\n"),
    (
        "serve|file=pier.txt|station=Pier",
        2,
        "words: pair 2 has an unknown key\n",
    ),
    (
        "serve|file=pier.txt|port=0",
        2,
        "words: pair 2 has a bad value\n",
    ),
    ("serve|file=quay.txt", 6, "read fault\n"),
    (
        "serve|file=short.txt|offsets=no.csv",
        3,
        "file: line 9: years differ (6)\n",
    ),
    ("serve|file=pier.txt|offsets=no.csv", 6, "read fault\n"),
    (
        "serve|file=pier.txt|offsets=empty.csv",
        3,
        "offsets: row 1: bad header (1)\n",
    ),
];

fn assert_refused(rt: &impl Abort, alloc: Global, line: &str, status: u8, printed: &str) {
    let outcome = serve_over(rt, alloc, line, &[Coming::Whole(LOST)], 4096, NONE);
    assert_end(rt, &outcome, status, printed, line);
    assert_reply(rt, &outcome, 0, None, line);
}

#[test]
fn what_keeps_the_server_from_serving_is_printed(rt: HostRuntime) {
    for &(line, status, printed) in REFUSED {
        assert_refused(&rt, rt.alloc(), line, status, printed);
    }
}
