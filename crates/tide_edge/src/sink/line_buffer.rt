//! A buffer of lines, so that several lines need only one system call.

ghost use Rattle.std.specs.Prelude.{◌≡◌, ◌+◌, ◌<◌, ◌≤◌, ◌^◌, ◌↔◌, IsTrue, [], length, OnErr, OnOk};
ghost use Rattle.tide_edge.specs.Sending.{Sends, gone_for, held_after};

use crate::sink::Sink;
use crate::sink::sending::send;
use crate::sink::writing::WriteFailed;
use arrayvec::ArrayString;

/// A buffer for the last bytes of a longer text, which aren't written yet: at most 4,096 bytes. It
/// doesn't allocate.
#[derive(Drop)]
pub struct LineBuffer {
    /// The bytes that aren't written yet.
    pub text: ArrayString<4096>,
}

impl LineBuffer {
    /// Returns an empty buffer.
    pub fn new() -> LineBuffer
        ensures { result.text.bytes ≡ [] }
    {
        LineBuffer {
            text: ArrayString::new(),
        }
    }

    /// Returns true if the buffer has room for `bytes` more bytes. Then a line of at most that many
    /// bytes can be appended to `text` without a write.
    pub fn has_room(&self, bytes: usize) -> bool
        ensures { IsTrue result ↔ (length self.now.text.bytes + bytes ≤ 4096) }
    {
        bytes <= self.text.capacity() - self.text.len()
    }

    /// Appends `line`, which has at most 4,096 bytes. If the buffer has no room for it, its contents are
    /// first written to `out`. `sent` is the number of bytes of the text that were written before.
    /// Returns `sent` plus the number of bytes written to `out`.
    ///
    /// # Errors
    /// [`WriteFailed`] if this write to `out` failed: then the buffer is unchanged.
    #[tactic(auto, using(crate::proofs::SendLemmas::same_state))]
    pub fn put<S: Sink>(&mut self, out: &mut S, sent: u64, line: &str) -> Result<u64, WriteFailed>
        requires length_bound { length line.now ≤ 4096 }
        requires count_bound { sent + length self.old.text.bytes < 2 ^ 64 }
        ensures sends { Sends (S.state out.old) (S.state out.new) sent (gone_for self.old.text.bytes line.now) result }
        ensures holds { OnOk result (self.new.text.bytes ≡ held_after self.old.text.bytes line.now) }
        ensures kept { OnErr result (self.new.text.bytes ≡ self.old.text.bytes) }
    {
        if self.has_room(line.len()) {
            self.text.push_str(line);
            return Ok(sent);
        }
        let done = send(out, sent, self.text.as_str())?;
        self.text.clear();
        self.text.push_str(line);
        Ok(done)
    }

    /// Writes the buffer's contents to `out`. `sent` is the number of bytes of the text that were
    /// written before. Returns `sent` plus the number of bytes written.
    ///
    /// # Errors
    /// [`WriteFailed`] if a write to `out` failed: then `out` has only the first bytes of the contents.
    pub fn end<S: Sink>(self, out: &mut S, sent: u64) -> Result<u64, WriteFailed>
        requires { sent + length self.text.bytes < 2 ^ 64 }
        ensures { Sends (S.state out.old) (S.state out.new) sent self.text.bytes result }
    {
        send(out, sent, self.text.as_str())
    }
}
