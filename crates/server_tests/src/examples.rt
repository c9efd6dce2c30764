//! The examples in the documentation of `serve` and `reply`, over objects in memory.

ghost use Rattle.std.specs.Prelude.{IsTrue};
ghost use Rattle.std.specs.List.{list_all};
ghost use Rattle.tide_edge.specs.Memory.{are_pieces};

use crate::asserts::assert_bytes;
use decimal_text::{Bytes, Text};
use harmonics_text::read_book;
use sample_tides::{PIER, words_of};
use station_table::OffsetTable;
use std::alloc::Global;
use std::process::Abort;
use tide_answer::Status;
use tide_edge::{FixedClock, MemoryDoor, MemoryFiles, MemorySink, NamedFile};
use tide_server::{reply, serve};

const REQUEST: &str = "GET /stations HTTP/1.1\r\nHost: a\r\n\r\n";

fn requests(rt: &impl Abort, alloc: Global) -> Vec<Vec<Bytes>>
    ensures { IsTrue (list_all (λ request. are_pieces request.items) result.items) }
{
    let request = REQUEST.as_bytes().to_vec(alloc).expect(rt, "a request");
    let mut pieces = Vec::new(alloc);
    pieces.push(Bytes::from_vec(request)).expect(rt, "pieces");
    let mut requests = Vec::new(alloc);
    requests.push(pieces).expect(rt, "requests");
    requests
}

fn pier(rt: &impl Abort, alloc: Global) -> NamedFile {
    let name = Text::from_str(alloc, "pier.txt").expect(rt, "a name");
    let bytes = PIER.as_bytes().to_vec(alloc).expect(rt, "a text");
    NamedFile {
        name,
        bytes: Bytes::from_vec(bytes),
    }
}

#[test]
fn a_request_has_its_reply(rt: HostRuntime) {
    let alloc = rt.alloc();
    let book = read_book(alloc, PIER.as_bytes()).expect(&rt, "a book");
    let table = OffsetTable::new(alloc);
    let request = b"GET /stations HTTP/1.1\r\nHost: a\r\n\r\n".as_slice();
    let answered = reply(alloc, &book, &table, request, 15_791_220).expect(&rt, "a reply");
    assert!(rt; answered.as_slice().starts_with(b"HTTP/1.1 200 OK\r\n"));
}

#[test]
fn a_server_serves(rt: HostRuntime) {
    let alloc = rt.alloc();
    let pier = pier(&rt, alloc);
    let requests = requests(&rt, alloc);
    let words = words_of(alloc, "serve|file=pier.txt|port=8080").expect(&rt, "words");
    let files = vec![in alloc; pier].expect(&rt, "files");
    let mut files = MemoryFiles::new(files, Vec::new(alloc));
    let mut door = MemoryDoor::new(alloc, requests, 4_096, Vec::new(alloc)).expect(&rt, "a port");
    let mut err = MemorySink::new(alloc, 4_096, 4_096, Vec::new(alloc)).expect(&rt, "a sink");
    let mut clock = FixedClock::new(15_791_220, Vec::new(alloc));
    let status = serve(alloc, &words, &mut files, &mut door, &mut err, &mut clock);
    assert_eq!(rt; status, Status::Done);
    assert_bytes(&rt, err.bytes(), b"http://127.0.0.1:8080/\n", "serve");
}
