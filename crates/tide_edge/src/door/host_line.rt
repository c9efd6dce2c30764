//! A TCP connection of the machine.

ghost use Rattle.std.specs.Prelude.{◌<◌, ◌≤◌, length, IfOk};
ghost use Rattle.std.specs.Io.KnownBytes.{ReadConsumes, WriteAppends};

use std::io::{self, ErrorKind, Read, Write};
use std::net::{OpenStream, Shutdown};
use std::rt;
use std::time::{Duration, Instant};

/// The seconds that a peer has to send its whole request, counted from the acceptance of its
/// connection.
const REQUEST_SECONDS: u64 = 60;

/// The seconds that a peer has to receive its whole reply, counted from the first write.
const REPLY_SECONDS: u64 = 60;

/// The seconds that a peer has after its reply to close its side of the connection.
const FAREWELL_SECONDS: u64 = 2;

/// The shortest timeout of a socket, in milliseconds. A timeout of 0 would wait without limit.
const SHORTEST_WAIT_MILLISECONDS: u64 = 1;

/// The most calls on a connection within a deadline: more than there is time for.
const TRIES: u32 = u32::MAX;

/// The time when waiting ends. It is absent if the clock couldn't be read; then no time is left.
#[derive(Clone, Copy)]
struct Deadline {
    end: Option<Instant>,
}

impl Deadline {
    fn in_seconds(clock: &impl rt::Clock, seconds: u64) -> Deadline {
        let now = Instant::now(clock).ok();
        Deadline {
            end: now.and_then(|now| now.checked_add(Duration::from_secs(seconds))),
        }
    }

    /// Returns the time left until the deadline, at least the shortest timeout of a socket.
    fn left(self, clock: &impl rt::Clock) -> io::Result<Duration> {
        let now = Instant::now(clock)?;
        let shortest = Duration::from_millis(SHORTEST_WAIT_MILLISECONDS);
        match self.end {
            Some(end) if now < end => Ok(end.duration_since(now).max(shortest)),
            _ => Err(io::Error::from(ErrorKind::TimedOut)),
        }
    }
}

/// An accepted connection. All reads of a request share one deadline, and so do all writes of a
/// reply, by a monotonic clock. A call that a signal interrupted is repeated.
#[derive(Drop)]
pub(crate) struct HostLine<S: OpenStream + Read + Write + Drop> {
    stream: S,
    deadline: Deadline,
    replies: bool,
}

impl<S: OpenStream + Read + Write + Drop> HostLine<S> {
    ghost use Rattle.tide_edge.specs.Adapters.{stream_of};

    /// Returns a connection over the just accepted `stream`; the time for its request begins now.
    pub(crate) fn new(stream: S, clock: &impl rt::Clock) -> HostLine<S> {
        HostLine {
            stream,
            deadline: Deadline::in_seconds(clock, REQUEST_SECONDS),
            replies: false,
        }
    }

    /// Reads the next bytes that the peer has sent into the first bytes of `buffer`, and returns
    /// their count: 0 after the last. It fails once the deadline has passed.
    pub(crate) fn read(&mut self, clock: &impl rt::Clock, buffer: &mut [u8]) -> io::Result<usize>
        ensures within { IfOk result (λ count. count ≤ length buffer.old) }
        ensures tied { ReadConsumes (S.remaining (stream_of self.old)) (S.remaining (stream_of self.new)) result buffer.new }
    {
        read_in_time(&mut self.stream, self.deadline, clock, buffer)
    }

    /// Writes the first bytes of `piece`, and returns how many were accepted. The deadline of the
    /// reply is set by the first call.
    pub(crate) fn write(&mut self, clock: &impl rt::Clock, piece: &[u8]) -> io::Result<usize>
        ensures within { IfOk result (λ count. count ≤ length piece.now) }
        ensures tied { WriteAppends (S.contents (stream_of self.old)) (S.contents (stream_of self.new)) result piece.now }
    {
        if !self.replies {
            self.replies = true;
            self.deadline = Deadline::in_seconds(clock, REPLY_SECONDS);
        }
        write_in_time(&mut self.stream, self.deadline, clock, piece)
    }

    /// Shuts down the writing side, and reads until the end of what the peer still sends: a system that
    /// closes a connection with unread bytes may drop the reply on its way (RFC 9112, section 9.6).
    pub(crate) fn part(&mut self, clock: &impl rt::Clock) {
        if self.stream.shutdown(Shutdown::Write).is_err() {
            return;
        }
        self.deadline = Deadline::in_seconds(clock, FAREWELL_SECONDS);
        let mut buffer = [0; 4096];
        for _ in 0..TRIES {
            match self.read(clock, &mut buffer) {
                Ok(count) if count > 0 => {}
                _ => return,
            }
        }
    }
}

/// Reads into the first bytes of `buffer` before the deadline, and returns the count: 0 at the end.
fn read_in_time<S: OpenStream + Read>(
    stream: &mut S,
    deadline: Deadline,
    clock: &impl rt::Clock,
    buffer: &mut [u8],
) -> io::Result<usize>
    ensures within { IfOk result (λ count. count ≤ length buffer.old) }
    ensures tied { ReadConsumes (S.remaining stream.old) (S.remaining stream.new) result buffer.new }
{
    for _ in 0..TRIES {
        stream.set_read_timeout(Some(deadline.left(clock)?))?;
        match stream.read(buffer) {
            Err(fault) if fault.kind() == ErrorKind::Interrupted => {}
            answer => return answer,
        }
    }
    Err(io::Error::from(ErrorKind::Interrupted))
}

/// Writes the first bytes of `piece` before the deadline, and returns their count.
fn write_in_time<S: OpenStream + Write>(
    stream: &mut S,
    deadline: Deadline,
    clock: &impl rt::Clock,
    piece: &[u8],
) -> io::Result<usize>
    ensures within { IfOk result (λ count. count ≤ length piece.now) }
    ensures tied { WriteAppends (S.contents stream.old) (S.contents stream.new) result piece.now }
{
    for _ in 0..TRIES {
        stream.set_write_timeout(Some(deadline.left(clock)?))?;
        match stream.write(piece) {
            Err(fault) if fault.kind() == ErrorKind::Interrupted => {}
            answer => return answer,
        }
    }
    Err(io::Error::from(ErrorKind::Interrupted))
}
