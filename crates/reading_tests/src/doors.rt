//! Doors in memory, and a port of the machine.

ghost use Rattle.std.specs.Prelude.{◌≡◌, false, IsTrue};
ghost use Rattle.std.specs.List.{list_all};
ghost use Rattle.tide_edge.specs.Adapters.{held_by};
ghost use Rattle.tide_edge.specs.Doors.{not_listening};
ghost use Rattle.tide_edge.specs.Memory.{are_pieces};

use crate::asserts::assert_holds;
use decimal_text::Bytes;
use std::alloc::Global;
use std::io::{Read, Write};
use std::net::{Ipv4Addr, TcpStream};
use std::process::Abort;
use tide_edge::{Door, Failed, HostDoor, MemoryDoor};

/// Accepts one connection, and sends back the first bytes that are read over it.
fn echo<D: Door>(door: &mut D) -> Result<bool, Failed>
    requires listens { IsTrue (D.state door.old).listener_state.listens }
    requires none_open { (D.state door.old).listener_state.is_open ≡ false }
    ensures listens { IsTrue (D.state door.new).listener_state.listens }
    ensures none_open { (D.state door.new).listener_state.is_open ≡ false }
{
    if !door.next()? {
        return Ok(false);
    }
    let mut buffer = [0; 8];
    let mut sent = door.read(&mut buffer);
    if let Ok(count) = sent
        && count > 0
    {
        sent = door.write(&buffer[..count]);
    }
    door.close();
    sent.map(|_| true)
}

/// Returns a request in two pieces, and one without a byte.
fn requests(rt: &impl Abort, alloc: Global) -> Vec<Vec<Bytes>>
    ensures { IsTrue (list_all (λ request. are_pieces request.items) result.items) }
{
    let first = b"pier".to_vec(alloc).expect(rt, "a piece");
    let second = b" files".to_vec(alloc).expect(rt, "a piece");
    let mut pieces = Vec::new(alloc);
    pieces.push(Bytes::from_vec(first)).expect(rt, "pieces");
    pieces.push(Bytes::from_vec(second)).expect(rt, "pieces");
    let mut requests = Vec::new(alloc);
    requests.push(pieces).expect(rt, "requests");
    requests.push(Vec::new(alloc)).expect(rt, "requests");
    requests
}

fn has_reply(door: &MemoryDoor, i: u64, text: &str) -> bool {
    door.reply(i).is_some_and(|reply| reply == text.as_bytes())
}

/// The capacity for replies, the call that fails, the outcomes of three connections, and the first
/// reply.
static DOORS: &[(u64, u64, [Result<bool, Failed>; 3], &str)] = &[
    (4, 0, [Ok(true), Ok(true), Ok(false)], "pier"),
    (4, 2, [Err(Failed), Ok(true), Ok(true)], "pier"),
    (4, 3, [Err(Failed), Ok(true), Ok(false)], ""),
    (4, 4, [Err(Failed), Ok(true), Ok(false)], ""),
    (4, 5, [Ok(true), Err(Failed), Ok(true)], "pier"),
    (3, 7, [Ok(true), Ok(true), Err(Failed)], "pie"),
    (0, 0, [Err(Failed), Ok(true), Ok(false)], ""),
];

fn has_replies(door: &MemoryDoor, first: &str) -> bool {
    has_reply(door, 0, first) && has_reply(door, 1, "") && door.reply(2) == None
}

/// Returns a door, with a capacity of `capacity` bytes for all replies, at which the call with the number
/// `failing` fails.
fn memory_door(rt: &impl Abort, alloc: Global, capacity: u64, failing: u64) -> MemoryDoor
    ensures { (held_by result).listener_state ≡ not_listening }
{
    let fails = [failing].to_vec(alloc).expect(rt, "a schedule");
    let requests = requests(rt, alloc);
    MemoryDoor::new(alloc, requests, capacity, fails).expect(rt, "a door")
}

/// Returns true if such a door has those outcomes and replies.
fn is_served(
    rt: &impl Abort,
    alloc: Global,
    capacity: u64,
    failing: u64,
    expected: &[Result<bool, Failed>; 3],
    first: &str,
) -> bool {
    let mut door = memory_door(rt, alloc, capacity, failing);
    serves(&mut door, expected, first)
}

/// Returns true if `door`, listening, has those outcomes and replies.
fn serves(door: &mut MemoryDoor, expected: &[Result<bool, Failed>; 3], first: &str) -> bool
    requires { (held_by door.old).listener_state ≡ not_listening }
{
    if door.listen(80) != Ok(()) {
        return false;
    }
    let (one, two, three) = (echo(door), echo(door), echo(door));
    one == expected[0] && two == expected[1] && three == expected[2] && has_replies(door, first)
}

#[test]
fn a_door_in_memory_fails_as_required(rt: HostRuntime) {
    for (place, (capacity, failing, expected, first)) in DOORS.iter().enumerate() {
        let is_served = is_served(&rt, rt.alloc(), *capacity, *failing, expected, first);
        assert_holds(&rt, is_served, place);
    }
}

#[test]
fn a_shut_door_fails(rt: HostRuntime) {
    let mut shut = memory_door(&rt, rt.alloc(), 0, 1);
    assert!(rt; shut.listen(80) == Err(Failed));
}

/// Returns true if the unread bytes of `peer` are `expected`.
fn rest_is<P: Read>(alloc: Global, peer: &mut P, expected: &[u8]) -> bool {
    let mut answer = Vec::new(alloc);
    peer.read_to_end(&mut answer).is_ok() && answer.as_slice() == expected
}

/// Sends bytes over `peer` to `door`, which sends them back.
fn check_echo<D: Door, P: Read + Write>(rt: &impl Abort, alloc: Global, door: &mut D, peer: &mut P)
    requires listens { IsTrue (D.state door.old).listener_state.listens }
    requires none_open { (D.state door.old).listener_state.is_open ≡ false }
{
    peer.write_all(b"pier").expect(rt, "a write");
    assert!(rt; echo(door) == Ok(true));
    assert!(rt; rest_is(alloc, peer, b"pier"));
}

/// Returns true if the port is in use.
fn is_taken(rt: &impl Abort, system: &HostRuntime, port: u16) -> bool {
    let mut door = HostDoor::new(system.clone().expect(rt, "a handle"));
    door.listen(port) == Err(Failed)
}

/// Returns false if `door` can't listen on `port`.
fn takes_connection(
    rt: &impl Abort,
    system: &HostRuntime,
    door: &mut HostDoor<HostRuntime>,
    port: u16,
) -> bool
    requires { (⟦<HostDoor<HostRuntime> as Door>⟧.state door.old).listener_state ≡ not_listening }
{
    if door.listen(port).is_err() {
        return false;
    }
    assert!(rt; is_taken(rt, system, port));
    let mut peer = TcpStream::connect(system, (Ipv4Addr::LOCALHOST, port)).expect(rt, "a peer");
    check_echo(rt, system.alloc(), door, &mut peer);
    true
}

#[test]
fn a_port_of_the_machine_takes_a_connection(rt: HostRuntime) {
    for port in 47_100..47_200 {
        let mut door = HostDoor::new(rt.clone().expect(&rt, "a handle"));
        if takes_connection(&rt, &rt, &mut door, port) {
            return;
        }
    }
    assert_holds(&rt, false, "no port is free");
}
