//! Files in memory.

ghost use Rattle.std.specs.Prelude.{
  ◌≡◌,
  ◌+◌,
  ◌-◌,
  ◌<◌,
  ◌≤◌,
  ◌^◌,
  ◌∷◌,
  ◌++◌,
  [],
  position,
  length,
  take,
  drop,
  None,
  is_none,
  if◌then◌else◌,
  IfOk,
};
ghost use Rattle.std.specs.Option.{option_map};
ghost use Rattle.std.specs.Str.{bytes_eq};
ghost use Rattle.tide_edge.specs.FaultSchedule.{after_call, answer, is_to_fail};
ghost use Rattle.tide_edge.specs.Memory.{folder_of};
ghost use Rattle.tide_edge.specs.Workings.OpenFile.{bytes_at, rest_of};

use crate::failed::Failed;
use crate::fault_schedule::FaultSchedule;
use crate::files::Files;
use crate::files::call::{OneFileCall, then_open, then_read};
use crate::files::named_file::NamedFile;
use crate::unread_bytes::rest_from;
use decimal_text::Text;
use ghost_log::Log;
use std::marker::Model;

/// Files in memory. Contracts know their contents. They are steady (opening and reading an existing
/// file never fails) if no call is to fail.
#[derive(Drop)]
pub struct MemoryFiles {
    files: Vec<NamedFile>,
    opened: Option<usize>,
    at: usize,
    fault_schedule: FaultSchedule,
    history: Log<OneFileCall>,
}

impl Model for MemoryFiles {
    ghost use Rattle.tide_edge.specs.Memory.{HeldFiles};
    ghost use Rattle.tide_edge.specs.Workings.OpenFile.{IsOpenAs};

    ghost Value = { HeldFiles };

    ghost view = { λ m. record { files = m.files.items; fails = m.fault_schedule.fails; history = m.history.items } };

    ghost invariant = { λ m.
        IsOpenAs (record { files = m.files.items; fails = m.fault_schedule.fails; history = m.history.items }) m.opened m.at m.fault_schedule };
}

impl MemoryFiles {
    /// Returns the files in memory `files`, none of them open. If two have the same name, the first
    /// is used. The calls of `open` and `read` with a number in `fails`, counted together from 1,
    /// fail.
    pub fn new(files: Vec<NamedFile>, fails: Vec<u64>) -> MemoryFiles
        ensures { result ≡ record { files = files.items; fails = fails.items; history = [] } }
    {
        MemoryFiles {
            files,
            opened: None,
            at: 0,
            fault_schedule: FaultSchedule::new(fails),
            history: Log::new(),
        }
    }
}

impl Files for MemoryFiles {
    ghost use Rattle.std.specs.Result.{result_unwrap_or};
    ghost use Rattle.tide_edge.specs.FileStates.{IsNoneOpen, files_after_open, files_after_read};
    ghost use Rattle.tide_edge.specs.Memory.{Open, Read, files_now, files_state, open_result, read_result};
    ghost use Rattle.tide_edge.specs.Workings.MemoryLaws.{memory_lawful};

    ghost state = { λ m. files_state m };

    ghost lawful = { memory_lawful };

    fn open(&mut self, name: &Text) -> Result<(), Failed>
        ensures answer { result ≡ open_result (files_now self.old) name.now }
        ensures history { self.new ≡ record self.old { history = self.old.history ++ Open name.now ∷ [] } }
        ensures after { files_state self.new ≡ files_after_open result name.now (files_state self.old) }
    {
        self.history = then_open(&self.history, name);
        self.opened = find(&mut self.fault_schedule, &self.files, name);
        self.at = 0;
        result_of(self.opened)
    }

    fn read(&mut self, buffer: &mut [u8]) -> Result<usize, Failed>
        requires { 0 < length buffer.old }
        ensures answer { result ≡ read_result (files_now self.old) (length buffer.old) }
        ensures history { self.new ≡ record self.old { history = self.old.history ++ Read (length buffer.old - 1) ∷ [] } }
        ensures filled { let count = result_unwrap_or result 0 in
            buffer.new ≡ take count (files_state self.old).unread_bytes ++ drop count buffer.old }
        ensures after { files_state self.new ≡ files_after_read result buffer.new (files_state self.old) }
        ensures within { IfOk result (λ count. count ≤ length buffer.old) }
        ensures none_open { IsNoneOpen (files_state self.old).open_log → IfOk result (λ count. count ≡ 0) }
    {
        self.history = then_read(&self.history, buffer.len() - 1);
        self.fault_schedule.next()?;
        let unread_bytes = rest_at(&self.files, self.opened, self.at);
        let count = buffer.len().min(unread_bytes.len());
        buffer[..count].copy_from_slice(&unread_bytes[..count]);
        self.at += count;
        Ok(count)
    }
}

/// Returns the result of `open`, which has found the file with this index, or none.
fn result_of(index: Option<usize>) -> Result<(), Failed>
    ensures { result ≡ answer (is_none index) record {} }
{
    match index {
        Some(_) => Ok(()),
        None => Err(Failed),
    }
}

/// Counts a call, and returns the index (from 0) of the first file called `name`, or `None` if the
/// call is to fail or there is no such file.
fn find(fault_schedule: &mut FaultSchedule, files: &[NamedFile], name: &Text) -> Option<usize>
    ensures index { option_map (bytes_at files.now) result ≡ (if is_to_fail fault_schedule.old then None else folder_of files.now name.now) }
    ensures after { fault_schedule.new ≡ after_call (is_none result) fault_schedule.old }
{
    if fault_schedule.next().is_err() {
        return None;
    }
    let index = index_of_file(files, name);
    if index.is_none() {
        fault_schedule.fail();
    }
    index
}

/// Returns the index of the first file called `name`, or `None` if there isn't one.
fn index_of_file(files: &[NamedFile], name: &Text) -> Option<usize>
    ensures { folder_of files.now name.now ≡ option_map (bytes_at files.now) result }
{
    first_named(files, name)
}

fn first_named(files: &[NamedFile], name: &Text) -> Option<usize>
    ensures { result ≡ position (λ file. bytes_eq file.name name.now) files.now }
{
    files
        .iter()
        .position(|file| file.name.as_str() == name.as_str())
}

/// Returns the bytes of the file with index `opened` from byte `at` on: none if `opened` is `None`.
fn rest_at(files: &[NamedFile], opened: Option<usize>, at: usize) -> &[u8]
    ensures unread_bytes { result.now ≡ rest_of files.now opened at }
    ensures fits { at + length result.now < 2 ^ 64 }
{
    match opened {
        Some(index) if index < files.len() => rest_from(files[index].bytes.as_slice(), at),
        _ => &[],
    }
}
