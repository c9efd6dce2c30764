//! A TCP port of the machine.

ghost use Rattle.std.specs.Prelude.{◌≡◌, ◌<◌, ◌≤◌, false, IsTrue, [], length, None, IfOk, IsSome};
ghost use Rattle.std.specs.Io.KnownBytes.{ReadConsumes, WriteAppends};
ghost use Rattle.tide_edge.specs.Doors.{IsUntouched, door_after_close, door_after_next, door_after_read, door_after_write};

use crate::door::Door;
use crate::door::connections::Connections;
use crate::door::host_line::HostLine;
use crate::door::listener_state::ListenerState;
use crate::door::open_line::{read_open, write_open};
use crate::failed::Failed;
use crate::host_fault::count_fault;
use std::io::{self, ErrorKind};
use std::net::{Ipv4Addr, Net, OpenListener, TcpListener};
use std::rt;

/// The most connections in a row that one call of `next` skips because they failed before they were
/// accepted.
const GONE_IN_A_ROW: u32 = u32::MAX;

/// Linux's numbers of the errors of a connection for which `ErrorKind` has no variant: ENONET,
/// EPROTO, ENOPROTOOPT, EOPNOTSUPP and EHOSTDOWN.
const CONNECTION_ERRORS: [i32; 5] = [64, 71, 92, 95, 112];

/// A TCP port of the machine, at the address 127.0.0.1 only. Contracts know the bytes read and
/// written over each connection, but not the requests that will arrive.
///
/// `next` waits without limit, so it never returns false. A peer has 60 seconds to send its whole
/// request and 60 seconds to receive its whole reply; after that `read` or `write` fails. `close`
/// waits at most 2 seconds for the end of what the peer sends.
#[derive(Drop)]
pub struct HostDoor<R: Net + rt::Clock + Drop> {
    system: R,
    listener: Option<R::Listener>,
    line: Option<HostLine<R::Stream>>,
    listener_state: ListenerState,
    connections: Connections,
    faults: u64,
    line_faults: u64,
    ghost untouched: { listener_state.port ≡ None → IsUntouched listener_state connections },
}

impl<R: Net + rt::Clock + Drop> HostDoor<R> {
    ghost use Rattle.tide_edge.specs.Doors.{no_connections, not_listening};

    /// Returns a door for a TCP port of `system`, the machine. It doesn't listen yet.
    pub fn new(system: R) -> HostDoor<R>
        ensures listener_state { (⟦<HostDoor<R> as Door>⟧.state result).listener_state ≡ not_listening }
        ensures connections { (⟦<HostDoor<R> as Door>⟧.state result).connections ≡ no_connections }
        ensures faults { (⟦<HostDoor<R> as Door>⟧.state result).faults ≡ 0 }
        ensures line_faults { (⟦<HostDoor<R> as Door>⟧.state result).line_faults ≡ 0 }
    {
        HostDoor {
            system,
            listener: None,
            line: None,
            listener_state: ListenerState::not_listening(),
            connections: Connections::none(),
            faults: 0,
            line_faults: 0,
        }
    }
}

impl<R: Net + rt::Clock + Drop> Door for HostDoor<R> {
    ghost use Rattle.tide_edge.specs.Adapters.{known_of, line_of};
    ghost use Rattle.std.proofs.Common.{true≢false, sym};

    ghost state = { λ h. record {
      door_contents = record { is_observable = false; keeps_pieces = false; requests = [] };
      listener_state = h.listener_state;
      connections = h.connections;
      faults = h.faults;
      line_faults = h.line_faults;
    } };

    ghost lawful = { λ _ is. absurd (true≢false (sym is)) };

    fn listen(&mut self, port: u16) -> Result<(), Failed> {
        match TcpListener::bind(&self.system, (Ipv4Addr::LOCALHOST, port)) {
            Ok(listener) => {
                self.listener = Some(listener);
                self.listener_state = ListenerState::listen_requested(port, true);
                Ok(())
            }
            Err(_) => {
                self.listener_state = ListenerState::listen_requested(port, false);
                Err(count_fault(&mut self.faults))
            }
        }
    }

    fn next(&mut self) -> Result<bool, Failed>
        requires listens { IsTrue (⟦<HostDoor<R> as Door>⟧.state self.old).listener_state.listens }
        requires none_open { (⟦<HostDoor<R> as Door>⟧.state self.old).listener_state.is_open ≡ false }
        ensures after { ⟦<HostDoor<R> as Door>⟧.state self.new ≡ door_after_next result (⟦<HostDoor<R> as Door>⟧.state self.old) }
        ensures never_over { IfOk result IsTrue }
        ensures opened { IfOk result (λ _. IsSome (line_of self.new)) }
    {
        if let Some(listener) = &self.listener
            && let Ok(stream) = take_next(listener)
        {
            self.line = Some(HostLine::new(stream, &self.system));
            self.listener_state.open();
            self.connections.open();
            return Ok(true);
        }
        Err(count_fault(&mut self.faults))
    }

    fn read(&mut self, buffer: &mut [u8]) -> Result<usize, Failed>
        requires buffer { 0 < length buffer.old }
        requires open { IsTrue (⟦<HostDoor<R> as Door>⟧.state self.old).listener_state.is_open }
        ensures after { ⟦<HostDoor<R> as Door>⟧.state self.new ≡ door_after_read result buffer.new (⟦<HostDoor<R> as Door>⟧.state self.old) }
        ensures within { IfOk result (λ count. count ≤ length buffer.old) }
        ensures tied { ReadConsumes (known_of R.Stream.remaining (line_of self.old))
            (known_of R.Stream.remaining (line_of self.new)) result buffer.new }
    {
        let read = read_open(&mut self.line, &self.system, &mut self.line_faults, buffer);
        self.connections.read(buffer, &read);
        read
    }

    fn write(&mut self, piece: &[u8]) -> Result<usize, Failed>
        requires piece { 0 < length piece.now }
        requires open { IsTrue (⟦<HostDoor<R> as Door>⟧.state self.old).listener_state.is_open }
        ensures after { ⟦<HostDoor<R> as Door>⟧.state self.new
            ≡ door_after_write result piece.now (⟦<HostDoor<R> as Door>⟧.state self.old) }
        ensures some { IfOk result (λ count. 0 < count) }
        ensures within { IfOk result (λ count. count ≤ length piece.now) }
        ensures tied { WriteAppends (known_of R.Stream.contents (line_of self.old))
            (known_of R.Stream.contents (line_of self.new)) result piece.now }
    {
        let written = write_open(&mut self.line, &self.system, &mut self.line_faults, piece);
        self.connections.write(piece, &written);
        written
    }

    fn close(&mut self)
        requires { IsTrue (⟦<HostDoor<R> as Door>⟧.state self.old).listener_state.is_open }
        ensures after { ⟦<HostDoor<R> as Door>⟧.state self.new ≡ door_after_close (⟦<HostDoor<R> as Door>⟧.state self.old) }
        ensures closed { line_of self.new ≡ None }
    {
        if let Some(line) = &mut self.line {
            line.part(&self.system);
        }
        self.line = None;
        self.listener_state.close();
    }
}

/// Accepts the next connection. Connections that failed before they were accepted are skipped; any
/// other error is returned.
fn take_next<L: OpenListener>(listener: &L) -> io::Result<L::Stream> {
    for _ in 0..GONE_IN_A_ROW {
        match listener.accept() {
            Ok((stream, _)) => return Ok(stream),
            Err(fault) if is_of_connection(&fault) => {}
            Err(fault) => return Err(fault),
        }
    }
    Err(io::Error::from(ErrorKind::ConnectionAborted))
}

/// Returns true if `fault`, an error of `accept`, concerns only the one connection, so that later
/// ones can still be accepted. The manual page accept(2) lists these errors.
fn is_of_connection(fault: &io::Error) -> bool {
    let is_named = matches!(
        fault.kind(),
        ErrorKind::ConnectionAborted
            | ErrorKind::ConnectionReset
            | ErrorKind::HostUnreachable
            | ErrorKind::Interrupted
            | ErrorKind::NetworkDown
            | ErrorKind::NetworkUnreachable
            | ErrorKind::TimedOut
    );
    is_named
        || fault
            .raw_os_error()
            .is_some_and(|number| CONNECTION_ERRORS.contains(&number))
}
