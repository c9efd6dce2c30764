//! The files of the file system.

ghost use Rattle.std.specs.Prelude.{◌≡◌, ◌<◌, ◌≤◌, false, [], length, None, IfOk, OnOk, OnErr, IsSome, IsTrue, is_none};
ghost use Rattle.std.specs.Io.KnownBytes.{ReadConsumes};
ghost use Rattle.tide_edge.specs.FileStates.{FilesState, IsNoneOpen, no_openings, files_after_open, files_after_read};

use crate::failed::Failed;
use crate::files::Files;
use crate::files::open_log::Openings;
use crate::files::read_through::read_through;
use crate::host_fault::count_fault;
use decimal_text::Text;
use std::{fs, rt};

/// The files of the machine's file system, named by their paths. Contracts know each call of `open`
/// and the bytes read after it, but not the contents of the files.
///
/// `open` fails for a path that can't be opened, and `read` for one that can't be read, such as a
/// directory. A file is closed once its end was read.
#[derive(Drop)]
pub struct HostFiles<R: rt::Files + Drop> {
    system: R,
    opened: Option<R::File>,
    open_log: Openings,
    faults: u64,
    ghost none_open: { IsNoneOpen open_log → IsTrue (is_none opened) },
}

impl<R: rt::Files + Drop> HostFiles<R> {
    ghost use Rattle.tide_edge.specs.Adapters.{file_of};

    /// Returns the files of `system`, the machine. No file is open.
    pub fn new(system: R) -> HostFiles<R>
        ensures none_open { file_of result ≡ None }
        ensures open_log { (⟦<HostFiles<R> as Files>⟧.state result).open_log ≡ no_openings }
        ensures faults { (⟦<HostFiles<R> as Files>⟧.state result).faults ≡ 0 }
    {
        HostFiles {
            system,
            opened: None,
            open_log: Openings::none(),
            faults: 0,
        }
    }
}

impl<R: rt::Files + Drop> Files for HostFiles<R> {
    ghost use Rattle.tide_edge.specs.Adapters.{file_of, left_of};
    ghost use Rattle.std.proofs.Common.{true≢false, sym};

    ghost state = { λ h. record {
      file_contents = record { is_observable = false; folder = λ name. None; is_steady = false };
      unread_bytes = [];
      open_log = h.open_log;
      faults = h.faults;
    } };

    ghost lawful = { λ _ is. absurd (true≢false (sym is)) };

    fn open(&mut self, name: &Text) -> Result<(), Failed>
        ensures after { ⟦<HostFiles<R> as Files>⟧.state self.new
            ≡ files_after_open result name.now (⟦<HostFiles<R> as Files>⟧.state self.old) }
        ensures opened { OnOk result (IsSome (file_of self.new)) }
        ensures none_open { OnErr result (file_of self.new ≡ None) }
    {
        self.opened = None;
        match fs::open(&self.system, name.as_str()) {
            Ok(file) => {
                self.opened = Some(file);
                self.open_log.open(name, true);
                Ok(())
            }
            Err(_) => {
                self.open_log.open(name, false);
                Err(count_fault(&mut self.faults))
            }
        }
    }

    fn read(&mut self, buffer: &mut [u8]) -> Result<usize, Failed>
        requires { 0 < length buffer.old }
        ensures after { ⟦<HostFiles<R> as Files>⟧.state self.new
            ≡ files_after_read result buffer.new (⟦<HostFiles<R> as Files>⟧.state self.old) }
        ensures within { IfOk result (λ count. count ≤ length buffer.old) }
        ensures none_open { IsNoneOpen (⟦<HostFiles<R> as Files>⟧.state self.old).open_log → IfOk result (λ count. count ≡ 0) }
        ensures closed { IfOk result (λ count. count ≡ 0 → file_of self.new ≡ None) }
        ensures tied { ReadConsumes (left_of R.File.remaining (file_of self.old))
            (left_of R.File.remaining (file_of self.new)) result buffer.new }
    {
        let outcome = read_through(&mut self.opened, buffer);
        match outcome {
            Ok(count) => self.open_log.read(buffer, count),
            Err(_) => {
                self.open_log.fail();
                count_fault(&mut self.faults);
            }
        }
        outcome
    }
}
