//! Files that are opened by name and read from beginning to end.

ghost use Rattle.std.specs.Prelude.{◌≡◌, ◌<◌, ◌≤◌, length, IfOk};
ghost use Rattle.tide_edge.specs.FileStates.{FilesState, IsNoneOpen, files_after_open, files_after_read};
ghost use Rattle.tide_edge.specs.StoreLaws.{IsLawful};

mod call;
mod in_memory;
mod named_file;
mod of_host;
mod open_log;
mod opening;
mod piece;
mod read_all_fault;
mod read_through;
mod reading;
mod receiver;

use crate::failed::Failed;
use decimal_text::Text;
pub use in_memory::MemoryFiles;
pub use named_file::NamedFile;
pub use of_host::HostFiles;
pub use piece::PIECE;
pub use read_all_fault::ReadAllFault;
pub use reading::{pass_file, read_all};
pub use receiver::Receiver;

/// Files that are opened by name, at most one at a time, and read from beginning to end.
///
/// In contracts, `state` has each call of `open` with the bytes read after it. If its flag
/// `is_observable` is true, as for files in memory, it also has the contents of the files, and says
/// whether they are steady (opening and reading an existing file never fails). The machine's files
/// aren't observable: only the calls and the bytes read are known. No call changes the contents or
/// these two flags.
pub trait Files {
    ghost state: { Self → FilesState };

    /// Opens the file `name` at its first byte. The file that was open before is closed.
    ///
    /// # Errors
    /// [`Failed`] if the file can't be opened; then no file is open. Files that are observable
    /// (their contents are in the state) and steady fail only if there is no file `name`.
    fn open(&mut self, name: &Text) -> Result<(), Failed>
        ensures after { state self.new ≡ files_after_open result name.now (state self.old) };

    /// Reads the next bytes of the open file into the first bytes of `buffer`, which isn't empty,
    /// and returns their count: 0 at the end of the file, or if no file is open.
    ///
    /// # Errors
    /// [`Failed`] if the file can't be read: the failure is counted and recorded for the latest
    /// call of `open`, and nothing else changes. Files that are observable (their contents are in
    /// the state) and steady never fail.
    fn read(&mut self, buffer: &mut [u8]) -> Result<usize, Failed>
        requires { 0 < length buffer.old }
        ensures after { state self.new ≡ files_after_read result buffer.new (state self.old) }
        ensures within { IfOk result (λ count. count ≤ length buffer.old) }
        ensures none_open { IsNoneOpen (state self.old).open_log → IfOk result (λ count. count ≡ 0) };

    /// The law of files. If the files are observable (the state has their contents), the bytes read
    /// after each call of `open` are a prefix of the file's bytes, and all of them if its end was
    /// found. If the files are also steady, a call of `open` has failed only if there is no such
    /// file, and no read has failed. Before the first call of `open` no byte is unread.
    ghost lawful: { (files : Self) → IsLawful (state files) };
}
