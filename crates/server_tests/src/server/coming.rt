//! Requests as a port receives them.

ghost use Rattle.std.specs.Prelude.{IsTrue};
ghost use Rattle.std.specs.List.{list_all};
ghost use Rattle.tide_edge.specs.Memory.{are_pieces};

use decimal_text::Bytes;
use std::alloc::Global;
use std::process::Abort;

/// A request as a client sends it: all of a text at once, all of a byte string at once, or a text one
/// byte at a time.
#[derive(Clone, Copy)]
pub enum Coming<'a> {
    Whole(&'a str),
    Bytes(&'a [u8]),
    ByBytes(&'a str),
}

fn whole(rt: &impl Abort, alloc: Global, request: &[u8]) -> Vec<Bytes>
    ensures { IsTrue (are_pieces result.items) }
{
    let mut pieces = Vec::new(alloc);
    if !request.is_empty() {
        let piece = request.to_vec(alloc).expect(rt, "a piece");
        pieces.push(Bytes::from_vec(piece)).expect(rt, "pieces");
    }
    pieces
}

fn by_bytes(rt: &impl Abort, alloc: Global, request: &str) -> Vec<Bytes>
    ensures { IsTrue (are_pieces result.items) }
{
    let mut pieces = Vec::new(alloc);
    for byte in request.as_bytes() {
        let mut piece = Vec::new(alloc);
        piece.push(*byte).expect(rt, "a piece");
        pieces.push(Bytes::from_vec(piece)).expect(rt, "pieces");
    }
    pieces
}

fn pieces_of(rt: &impl Abort, alloc: Global, coming: Coming<'_>) -> Vec<Bytes>
    ensures { IsTrue (are_pieces result.items) }
{
    match coming {
        Coming::Whole(request) => whole(rt, alloc, request.as_bytes()),
        Coming::Bytes(request) => whole(rt, alloc, request),
        Coming::ByBytes(request) => by_bytes(rt, alloc, request),
    }
}

/// Returns all of these requests, each as the nonempty pieces in which it arrives.
pub fn requests_of(rt: &impl Abort, alloc: Global, all: &[Coming<'_>]) -> Vec<Vec<Bytes>>
    ensures { IsTrue (list_all (λ request. are_pieces request.items) result.items) }
{
    let mut requests = Vec::new(alloc);
    for coming in all {
        requests
            .push(pieces_of(rt, alloc, *coming))
            .expect(rt, "requests");
    }
    requests
}
