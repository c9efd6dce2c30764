//! Requests over HTTP, their replies, and the server.

mod coming;
mod hours;
mod serving;
mod serving_texts;

use crate::asserts::{assert_bytes, assert_holds};
use arrayvec::ArrayString;
use std::alloc::{AllocError, Global};
use std::process::Abort;
use tide_edge::{FixedClock, MemoryDoor, MemoryFiles, MemorySink};
use tide_server::{enough, fixed_reply, servers_are_complete, unavailable_reply, worked_servers};

/// Returns a request for the stations with `count` fields, of which the first is the host's.
fn with_fields(alloc: Global, count: u32) -> Result<Vec<u8>, AllocError> {
    let mut request = b"GET /stations HTTP/1.1\r\nHost: a\r\n".to_vec(alloc)?;
    for _ in 1..count {
        request.extend_from_slice(b"A: b\r\n")?;
    }
    request.extend_from_slice(b"\r\n")?;
    Ok(request)
}

/// Requests, and the whole of their fixed replies.
const FIXED: &[(&str, &str)] = &[
    (
        "GET /tides HTTP/1.1\r\nHost: a\r\n\r\n",
        "HTTP/1.1 404 Not Found\r\nContent-Type: text/plain; charset=utf-8\r\nContent-Length: 10\r\n\
        Connection: close\r\n\r\nnot found\n",
    ),
    (
        "HEAD /tides HTTP/1.1\r\nHost: a\r\n\r\n",
        "HTTP/1.1 404 Not Found\r\nContent-Type: text/plain; charset=utf-8\r\nContent-Length: 10\r\nConnection: close\r\n\r\n",
    ),
    (
        "GET /check HTTP/1.1\nhOST: a\n\n",
        "HTTP/1.1 405 Method Not Allowed\r\nContent-Type: text/plain; charset=utf-8\r\nContent-Length: 19\r\n\
        Allow: POST\r\nConnection: close\r\n\r\nmethod not allowed\n",
    ),
    (
        "PUT /clock?a=b HTTP/1.0\r\n\r\n",
        "HTTP/1.1 405 Method Not Allowed\r\nContent-Type: text/plain; charset=utf-8\r\nContent-Length: 19\r\n\
        Allow: GET, HEAD\r\nConnection: close\r\n\r\nmethod not allowed\n",
    ),
    (
        "HEAD /clock HTTP/1.1 \r\nHost: a\r\n\r\n",
        "HTTP/1.1 400 Bad Request\r\nContent-Type: text/plain; charset=utf-8\r\nContent-Length: 12\r\n\
        Connection: close\r\n\r\nbad request\n",
    ),
];

fn assert_fixed(rt: &impl Abort, request: &str, expected: &str) {
    let mut out = ArrayString::new();
    assert_holds(rt, enough(request.as_bytes()), request);
    assert_holds(rt, fixed_reply(request.as_bytes(), &mut out), request);
    assert_bytes(rt, out.as_bytes(), expected.as_bytes(), request);
}

#[test]
fn fixed_rows_are_found_by_their_bytes(rt: HostRuntime) {
    for &(request, expected) in FIXED {
        assert_fixed(&rt, request, expected);
    }
}

/// Requests with a fixed reply, whether they are enough, and the status of the reply.
const FIRST_ROWS: &[(&str, bool, &str)] = &[
    ("", false, "400"),
    ("GET /clock HTTP/1.1\r\nHost: a\r\n\r", false, "400"),
    ("\n\nGET /clock HTTP/1.0\r\n\r\n", true, "400"),
    ("GET /clock HTTP/1.1\r\n\r\n", true, "400"),
    (
        "GET /tides HTTP/1.1\r\nHost: a\r\nHost: a\r\n\r\n",
        true,
        "400",
    ),
    ("GET clock HTTP/1.0\r\n\r\n", true, "400"),
    ("PUT /tides HTTP/1.0\r\n\r\n", true, "404"),
    ("GET /Clock HTTP/1.0\r\n\r\n", true, "404"),
    ("POST /check HTTP/1.0\r\n\r\n", true, "411"),
    (
        "POST /check HTTP/1.0\r\nTransfer-Encoding: chunked\r\n\r\n",
        true,
        "411",
    ),
    (
        "POST /check HTTP/1.0\r\nContent-Length: +5\r\n\r\nabcde",
        true,
        "400",
    ),
    (
        "POST /check HTTP/1.0\r\nContent-Length: 0000000000000000005\r\n\r\nabcde",
        true,
        "400",
    ),
    (
        "POST /check HTTP/1.0\r\nContent-Length: 5\r\ncontent-length: 5\r\n\r\nabcde",
        true,
        "400",
    ),
    (
        "POST /check HTTP/1.0\r\nContent-Length: 5\r\nTransfer-Encoding: x\r\n\r\nabcde",
        true,
        "400",
    ),
    (
        "POST /check HTTP/1.0\r\nContent-Length: 4194305\r\n\r\n",
        true,
        "413",
    ),
    (
        "POST /check HTTP/1.0\r\nContent-Length: 5\r\n\r\nabcd",
        false,
        "400",
    ),
];

/// Asserts whether `request` is enough, and the status of its fixed reply: none if it is empty.
fn assert_status(rt: &impl Abort, request: &[u8], settled: bool, status: &str, case: &str) {
    let mut out = ArrayString::new();
    assert_holds(rt, enough(request) == settled, case);
    assert_holds(
        rt,
        fixed_reply(request, &mut out) != status.is_empty(),
        case,
    );
    assert_holds(rt, out.as_str().contains(status), case);
}

#[test]
fn the_first_row_that_fits_answers(rt: HostRuntime) {
    for &(request, settled, status) in FIRST_ROWS {
        assert_status(&rt, request.as_bytes(), settled, status, request);
    }
}

/// Requests without a fixed reply.
const ASKING: &[&str] = &[
    "\nGET /predict?station=Pier HTTP/1.0\r\n\r\n",
    "HEAD /stations HTTP/1.1\r\nHost: a\r\nContent-Length: x\r\n\r\n",
    "POST /check HTTP/1.0\r\nContent-Length: 005\r\n\r\nabcde and more",
];

fn assert_asks(rt: &impl Abort, request: &str) {
    let mut out = ArrayString::new();
    assert_holds(rt, enough(request.as_bytes()), request);
    assert_holds(rt, !fixed_reply(request.as_bytes(), &mut out), request);
    assert_bytes(rt, out.as_bytes(), b"", request);
}

#[test]
fn other_rows_ask(rt: HostRuntime) {
    for request in ASKING {
        assert_asks(&rt, request);
    }
}

/// Numbers of bytes without the end of a head, whether they are enough, and the status of the reply.
const LARGE: &[(usize, bool, &str)] = &[(8_191, false, "400"), (8_192, true, "431")];

#[test]
fn large_heads_are_rejected(rt: HostRuntime) {
    for &(length, settled, status) in LARGE {
        let head = vec![in rt.alloc(); b'a'; length].expect(&rt, "a head");
        assert_status(&rt, &head, settled, status, status);
    }
}

#[test]
fn heads_of_many_fields_are_rejected(rt: HostRuntime) {
    for (count, status) in [(65, "431"), (64, "")] {
        let request = with_fields(rt.alloc(), count).expect(&rt, "a head");
        assert_status(&rt, &request, true, status, "many fields");
    }
}

#[test]
fn a_request_is_enough_once_it_is_whole(rt: HostRuntime) {
    let request = b"POST /check HTTP/1.1\r\nHost: a\r\nContent-Length: 5\r\n\r\nabcde".as_slice();
    for length in 0..request.len() {
        assert_holds(&rt, !enough(&request[..length]), "a part of a request");
    }
    assert_holds(&rt, enough(request), "a request");
}

/// Requests, and their replies if memory runs out.
const UNAVAILABLE: &[(&str, &str)] = &[
    (
        "GET /stations HTTP/1.1\r\nHost: a\r\n\r\n",
        "HTTP/1.1 503 Service Unavailable\r\nContent-Type: text/plain; charset=utf-8\r\nContent-Length: 10\r\n\
        Connection: close\r\n\r\nno memory\n",
    ),
    (
        "HEAD /stations HTTP/1.1\r\nHost: a\r\n\r\n",
        "HTTP/1.1 503 Service Unavailable\r\nContent-Type: text/plain; charset=utf-8\r\nContent-Length: 10\r\n\
        Connection: close\r\n\r\n",
    ),
];

#[test]
fn out_of_memory_has_a_reply(rt: HostRuntime) {
    for &(request, expected) in UNAVAILABLE {
        let mut out = ArrayString::new();
        unavailable_reply(request.as_bytes(), &mut out);
        assert_bytes(&rt, out.as_bytes(), expected.as_bytes(), request);
    }
}

#[test]
fn the_law_of_servers_holds_in_memory(_rt: HostRuntime) {
    servers_are_complete::<MemoryFiles, MemoryDoor, MemorySink, FixedClock>();
    worked_servers();
}
