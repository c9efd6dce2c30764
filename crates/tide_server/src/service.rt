//! The server, from the arguments to the exit status.

ghost use Rattle.std.specs.Prelude.{◌≡◌, ◌++◌, ◌≤◌, ◌+◌, Bool, false, true, [], None, decimal};
ghost use Rattle.arrayvec.specs.ArrayString.{array_string_len};
ghost use Rattle.tide_edge.specs.Doors.{listen_requested};
ghost use Rattle.tide_edge.specs.SinkStates.{Wrote};
ghost use Rattle.tide_server.specs.Openings.{notice_of};
ghost use Rattle.tide_server.specs.Promises.{ServesAs, service_states, services};
ghost use Rattle.tide_server.specs.Workings.Ends.{Ended, unread};

use crate::connections::serve_all;
use crate::request::Request;
use crate::served_data::ValidServedData;
use crate::served_data_reading::{names_another, read_served_data};
use arrayvec::ArrayString;
use decimal_text::Words;
use itoa::Buffer;
use named_files::{print_line, refuse, report};
use std::alloc::Global;
use tide_edge::{Clock, Door, Files, Sink};
use tide_fault::Status;

/// Serves answers over HTTP, with the files and at the port of 127.0.0.1 that the arguments `words`
/// name. It reads the arguments and the files, allocates for the longest request (4,202,496 bytes),
/// listens, and serves one connection after the other. Returns the exit status, 0 to 8.
///
/// The port at which the server listens is printed to `err`, and so is the reason why it ends, if
/// something failed; a failed write to `err` changes nothing. A failed read or write of a
/// connection ends only this connection. The clock is read once for each connection over which a
/// byte was received, and its reply is for this minute. If each read of the port returns bytes of
/// only one piece (a part in which a client sends its request), the last connection isn't read
/// further than its reply needs.
///
/// # Examples
/// ```
/// let words = words_of(alloc, "serve|file=pier.txt|port=8080")?;
/// let files = vec![in alloc; pier]?;
/// let mut files = MemoryFiles::new(files, Vec::new(alloc));
/// let mut door = MemoryDoor::new(alloc, requests, 4_096, Vec::new(alloc))?;
/// let mut err = MemorySink::new(alloc, 4_096, 4_096, Vec::new(alloc))?;
/// let mut clock = FixedClock::new(15_791_220, Vec::new(alloc));
/// let status = serve(alloc, &words, &mut files, &mut door, &mut err, &mut clock);
/// assert_eq!(rt; status, Status::Done);
/// ```
pub fn serve<F: Files, D: Door, E: Sink, K: Clock>(
    alloc: Global,
    words: &Words,
    files: &mut F,
    door: &mut D,
    err: &mut E,
    clock: &mut K,
) -> Status
    requires { (D.state door.old).listener_state.port ≡ None }
    ensures { ServesAs (service_states F.state D.state E.state K.state) words.now result
        (services files.old door.old err.old clock.old) (services files.new door.new err.new clock.new) }
{
    if names_another(words) {
        return refuse(err, Status::Words, b"words: unknown command\n");
    }
    match read_served_data(alloc, words, files) {
        Ok(served_data) => match Request::new(alloc) {
            Ok(mut request) => {
                let status = serve_data(alloc, &served_data, &mut request, door, err, clock);
                drop(request);
                drop(served_data);
                status
            }
            Err(_) => {
                drop(served_data);
                refuse(err, Status::NoMemory, b"no memory\n")
            }
        },
        Err(none) => report(alloc, none, err),
    }
}

/// Listens, and serves each connection.
fn serve_data<D: Door, E: Sink, K: Clock>(
    alloc: Global,
    served_data: &ValidServedData,
    request: &mut Request,
    door: &mut D,
    err: &mut E,
    clock: &mut K,
) -> Status
    requires unasked { (D.state door.old).listener_state.port ≡ None }
    ensures ended { Ended served_data.now result
        (unread (D.state door.old) (E.state err.old) (K.state clock.old))
        (unread (D.state door.new) (E.state err.new) (K.state clock.new)) }
    ensures clock_unread { (D.state door.new).listener_state.accepted ≡ 0 → clock.new ≡ clock.old }
{
    match door.listen(served_data.port()) {
        Ok(()) => serve_open(alloc, served_data, request, door, err, clock),
        Err(_) => refuse(err, Status::ReadFault, b"read fault\n"),
    }
}

/// Serves each connection of the port; the port is open.
fn serve_open<D: Door, E: Sink, K: Clock>(
    alloc: Global,
    served_data: &ValidServedData,
    request: &mut Request,
    door: &mut D,
    err: &mut E,
    clock: &mut K,
) -> Status
    requires listens { (D.state door.old).listener_state ≡ listen_requested served_data.now.port true }
    ensures ended { Ended served_data.now result
        (unread (D.state door.old) (E.state err.old) (K.state clock.old))
        (unread (D.state door.new) (E.state err.new) (K.state clock.new)) }
    ensures clock_unread { (D.state door.new).listener_state.accepted ≡ 0 → clock.new ≡ clock.old }
{
    report_port(served_data.port(), err);
    match serve_all(alloc, served_data, request, door, clock) {
        Ok(()) => Status::Done,
        Err(_) => refuse(err, Status::ReadFault, b"read fault\n"),
    }
}

/// Prints the port at which the server listens.
fn report_port<E: Sink>(port: u16, err: &mut E)
    ensures { (failed : Bool) × Wrote (E.state err.old) (E.state err.new) failed (notice_of port) }
{
    let mut line = ArrayString::new();
    write_notice(port, &mut line);
    print_line(err, line.as_str().as_bytes());
}

/// Appends the line of the port to `line`.
fn write_notice(port: u16, line: &mut ArrayString<64>)
    requires { line.old.bytes ≡ [] }
    ensures { line.new.bytes ≡ notice_of port }
{
    line.push_str("http://127.0.0.1:");
    push_port(port, line);
    line.push_str("/\n");
}

/// Appends `port` in decimal.
fn push_port(port: u16, line: &mut ArrayString<64>)
    requires { array_string_len line.old + 40 ≤ 64 }
    ensures bytes { line.new.bytes ≡ line.old.bytes ++ decimal port }
    ensures length_bound { array_string_len line.new ≤ array_string_len line.old + 40 }
{
    let mut buffer = Buffer::new();
    line.push_str(buffer.format(port));
}
