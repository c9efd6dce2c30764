//! Reading a whole file.

ghost use Rattle.std.specs.Prelude.{◌≡◌, ◌↔◌, ◌≤◌, ◌^◌, IsTrue, [], length, Err, IfOk, OnOk};
ghost use Rattle.decimal_text.specs.Expected.{Meets, is_outside_fault};
ghost use Rattle.tide_edge.specs.Whole.{HasPassed, OpenedOnce, ReadWithin, one_file, source_of, whole};
ghost use Rattle.tide_edge.specs.Workings.Reading.{HasCome, IsFresh, all_taken};

use crate::files::Files;
use crate::files::piece::PIECE;
use crate::files::read_all_fault::ReadAllFault;
use crate::files::receiver::Receiver;
use decimal_text::{Bytes, Text};
use std::alloc::{AllocError, Global};

/// Returns all bytes of the file `name` if there are at most `limit`. Whatever the result, the file
/// is opened at most once, its end is found at most once, and at most 65,536 bytes past `limit` are
/// read.
///
/// # Errors
/// - [`ReadAllFault::Failed`]: opening or reading failed. Exactly then, the count of failures of
///   `files` grows by one (unless it is the greatest `u64`). If contracts know the contents of the
///   files, and the files are steady (opening and reading an existing file never fails), there is
///   no file `name`.
/// - [`ReadAllFault::TooLong`]: more than `limit` bytes were read.
/// - [`ReadAllFault::NoMemory`]: memory ran out.
pub fn read_all<F: Files>(
    alloc: Global,
    files: &mut F,
    name: &Text,
    limit: u64,
) -> Result<Bytes, ReadAllFault>
    ensures whole { IsTrue (F.state files.old).file_contents.is_observable
        → Meets source_of (IsTrue (F.state files.old).file_contents.is_steady) (whole limit ((F.state files.old).file_contents.folder name.now)) result }
    ensures came { OpenedOnce source_of (whole limit) limit name.now (F.state files.old).open_log (F.state files.new).open_log result }
    ensures within { IfOk result (λ bytes. length bytes ≤ limit) }
    ensures too_long { (result ≡ Err ReadAllFault.TooLong) ↔ HasPassed limit (F.state files.old).open_log (F.state files.new).open_log }
    ensures read { ReadWithin (one_file limit) (is_outside_fault source_of result) (F.state files.old) (F.state files.new) }
{
    let mut kept = Kept {
        bytes: Vec::new(alloc),
    };
    match pass_file(alloc, files, name, limit, &mut kept) {
        Ok(()) => Ok(Bytes::from_vec(kept.bytes)),
        Err(fault) => Err(fault),
    }
}

/// Passes all bytes of the file `name` to `receiver`, which has received none before, if there are
/// at most `limit`. After an error, the contract doesn't say what `receiver` has received. The file
/// is opened at most once, and at most 65,536 bytes past `limit` are read.
///
/// # Errors
/// - [`ReadAllFault::Failed`]: opening or reading failed.
/// - [`ReadAllFault::TooLong`]: more than `limit` bytes were read.
/// - [`ReadAllFault::NoMemory`]: memory ran out.
pub fn pass_file<F: Files, R: Receiver>(
    alloc: Global,
    files: &mut F,
    name: &Text,
    limit: u64,
    receiver: &mut R,
) -> Result<(), ReadAllFault>
    requires unused { R.accepted receiver.old ≡ [] }
    requires most { limit ≤ R.most receiver.old }
    ensures came { OpenedOnce source_of (whole limit) limit name.now (F.state files.old).open_log (F.state files.new).open_log
        (all_taken (R.accepted receiver.new) result) }
    ensures within { OnOk result (length (R.accepted receiver.new) ≤ limit) }
    ensures too_long { (result ≡ Err ReadAllFault.TooLong) ↔ HasPassed limit (F.state files.old).open_log (F.state files.new).open_log }
    ensures read { ReadWithin (one_file limit) (is_outside_fault source_of result) (F.state files.old) (F.state files.new) }
{
    let mut buffer = vec![in alloc; 0; PIECE]?;
    match files.open(name) {
        Ok(()) => pass_rest(files, &mut buffer, limit, receiver),
        Err(_) => Err(ReadAllFault::Failed),
    }
}

/// Passes the unread bytes of the file that was just opened to `receiver`, which has received none
/// before, if there are at most `limit`. They are read into `buffer`, part by part.
fn pass_rest<F: Files, R: Receiver>(
    files: &mut F,
    buffer: &mut [u8],
    limit: u64,
    receiver: &mut R,
) -> Result<(), ReadAllFault>
    requires buffer { length buffer.old ≡ PIECE }
    requires fresh { IsFresh (F.state files.old).open_log }
    requires unused { R.accepted receiver.old ≡ [] }
    requires most { limit ≤ R.most receiver.old }
    ensures came { HasCome limit (F.state files.old) (F.state files.new) (R.accepted receiver.new) result }
    ensures within { OnOk result (length (R.accepted receiver.new) ≤ limit) }
{
    let mut passed = 0;
    loop {
        let count = files.read(buffer)?;
        if count == 0 {
            return Ok(());
        }
        if count as u64 > limit - passed {
            return Err(ReadAllFault::TooLong);
        }
        receiver.take(&buffer[..count])?;
        passed += count as u64;
    }
}

/// A receiver that keeps the bytes of a file.
#[derive(Drop)]
struct Kept {
    bytes: Vec<u8>,
}

impl Receiver for Kept {
    ghost accepted = { λ kept. kept.bytes.items };

    ghost most = { λ kept. 2 ^ 64 };

    fn take(&mut self, piece: &[u8]) -> Result<(), AllocError> {
        self.bytes.extend_from_slice(piece)
    }
}
