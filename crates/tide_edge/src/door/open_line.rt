//! Reading and writing the open connection of a door of the machine.

ghost use Rattle.std.specs.Prelude.{◌≡◌, ◌<◌, ◌≤◌, length, IfOk, is_err};
ghost use Rattle.std.specs.Io.KnownBytes.{ReadConsumes, WriteAppends};
ghost use Rattle.tide_edge.specs.Adapters.{known_of};
ghost use Rattle.tide_edge.specs.Faults.{faults_after};

use crate::door::host_line::HostLine;
use crate::failed::Failed;
use crate::host_fault::count_fault;
use std::io::{Read, Write};
use std::net::OpenStream;
use std::rt;

/// Reads the next bytes of the connection into the first bytes of `buffer`, and returns their
/// count: 0 at the end. A failure, also if there is no connection, is counted in `faults` (up to
/// the greatest `u64`).
pub(crate) fn read_open<S: OpenStream + Read + Write + Drop>(
    line: &mut Option<HostLine<S>>,
    clock: &impl rt::Clock,
    faults: &mut u64,
    buffer: &mut [u8],
) -> Result<usize, Failed>
    ensures within { IfOk result (λ count. count ≤ length buffer.old) }
    ensures counts { faults.new ≡ faults_after (is_err result) faults.old }
    ensures tied { ReadConsumes (known_of S.remaining line.old) (known_of S.remaining line.new) result buffer.new }
{
    let Some(line) = line else {
        return Err(count_fault(faults));
    };
    match line.read(clock, buffer) {
        Ok(count) => Ok(count),
        Err(_) => Err(count_fault(faults)),
    }
}

/// Writes the first bytes of `piece` to the connection, and returns how many were accepted, at
/// least one. A failure, also if there is no connection or no byte was accepted, is counted in
/// `faults` (up to the greatest `u64`).
pub(crate) fn write_open<S: OpenStream + Read + Write + Drop>(
    line: &mut Option<HostLine<S>>,
    clock: &impl rt::Clock,
    faults: &mut u64,
    piece: &[u8],
) -> Result<usize, Failed>
    ensures some { IfOk result (λ count. 0 < count) }
    ensures within { IfOk result (λ count. count ≤ length piece.now) }
    ensures counts { faults.new ≡ faults_after (is_err result) faults.old }
    ensures tied { WriteAppends (known_of S.contents line.old) (known_of S.contents line.new) result piece.now }
{
    let Some(line) = line else {
        return Err(count_fault(faults));
    };
    let Ok(count) = line.write(clock, piece) else {
        return Err(count_fault(faults));
    };
    if count == 0 {
        return Err(count_fault(faults));
    }
    Ok(count)
}
