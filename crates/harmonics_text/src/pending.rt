//! The bytes of a line that were read before its LF.

ghost use Rattle.std.specs.Prelude.{◌≡◌, ◌++◌, ◌≤◌, ◌↔◌, [], length, if◌then◌else◌, IfOk, IsTrue, Ok};
ghost use Rattle.harmonics_text.specs.Lines.{is_comment, is_filled};
ghost use Rattle.harmonics_text.specs.Workings.BookParsing.{Follows};
ghost use Rattle.harmonics_text.specs.Workings.Readers.{held};

use crate::fault::{LineFault, Why};
use crate::lines::is_comment;
use std::alloc::{AllocError, Global};
use std::marker::Model;

/// The greatest length in bytes, without the LF, of a line that isn't a comment.
const MOST: usize = 4096;

/// The bytes read of a line before its LF was found: all of them, at most 4,096, but only the `#`
/// if the line is a comment. In contracts its value is the list of these bytes.
#[derive(Drop)]
pub struct Pending {
    kept: Vec<u8>,
}

impl Model for Pending {
    ghost use Rattle.std.specs.Prelude.{List, ℕ, length, ◌≤◌};

    ghost Value = { List ℕ };

    ghost view = { λ p. p.kept.items };

    ghost invariant = { λ p. length p.kept.items ≤ 4096 };
}

impl Pending {
    /// Returns an empty line, with memory for 4,096 bytes, so that appending need not allocate.
    ///
    /// # Errors
    /// [`AllocError`]: if memory runs out.
    pub fn new(alloc: Global) -> Result<Pending, AllocError>
        ensures { IfOk result (λ p. p ≡ []) }
    {
        Ok(Pending {
            kept: Vec::with_capacity(alloc, MOST)?,
        })
    }

    /// Returns true if no byte of the line was read yet.
    pub fn is_empty(&self) -> bool
        ensures { IsTrue result ↔ (self.now ≡ []) }
    {
        self.kept.is_empty()
    }

    /// Borrows the kept bytes: the line read so far, or `#` if it is a comment.
    pub fn as_slice(&self) -> &[u8]
        ensures { result.now ≡ self.now }
    {
        self.kept.as_slice()
    }

    /// Returns the number of bytes of the line read so far, from 0 to 4,096, or 0 if the line is
    /// a comment.
    pub fn count(&self) -> u32
        ensures { result ≡ (if is_comment self.now then 0 else length self.now) }
    {
        if is_comment(self.kept.as_slice()) {
            0
        } else {
            self.kept.len() as u32
        }
    }

    /// Appends `more`, the next bytes of the line, none of them its LF. If the line is a comment,
    /// only its `#` is kept.
    ///
    /// # Errors
    /// [`Why::LineTooLong`]: if the line isn't a comment and then has more than 4,096 bytes.
    /// [`LineFault::NoMemory`]: if memory runs out.
    pub fn add(&mut self, more: &[u8]) -> Result<(), LineFault>
        ensures { Follows (λ _. self.new) result (held (self.old ++ more.now)) }
    {
        if is_comment_with(self.kept.as_slice(), more) {
            self.kept.clear();
            self.kept.extend_from_slice(b"#".as_slice())?;
            return Ok(());
        }
        if more.len() > MOST - self.kept.len() {
            return Err(LineFault::Bad(Why::LineTooLong));
        }
        self.kept.extend_from_slice(more)?;
        Ok(())
    }

    /// Appends `last`, the bytes of the line before its LF, as [`Pending::add`] does, but only if
    /// some bytes are kept already. Otherwise the whole line is `last`, which need not be copied,
    /// and nothing is kept or checked.
    ///
    /// # Errors
    /// [`Why::LineTooLong`]: if bytes are kept, and the line isn't a comment and has more than
    /// 4,096 bytes. [`LineFault::NoMemory`]: if memory runs out.
    pub fn end(&mut self, last: &[u8]) -> Result<(), LineFault>
        ensures { Follows (λ _. self.new) result (if is_filled self.old then held (self.old ++ last.now) else Ok []) }
    {
        if self.kept.is_empty() {
            Ok(())
        } else {
            self.add(last)
        }
    }

    /// Returns the kept bytes, or `last` if none are kept. After a call of [`Pending::end`] with
    /// the same `last`, this is the whole line, of a comment at least its `#`.
    pub fn whole<'a>(&'a self, last: &'a [u8]) -> &'a [u8]
        ensures { result.now ≡ (if is_filled self.now then self.now else last.now) }
    {
        if self.kept.is_empty() {
            last
        } else {
            self.kept.as_slice()
        }
    }

    /// Removes the kept bytes, so that the next line can begin.
    pub fn clear(&mut self)
        ensures { self.new ≡ [] }
    {
        self.kept.clear();
    }
}

/// Returns true if a line that begins with `begin` and then `more` is a comment.
fn is_comment_with(begin: &[u8], more: &[u8]) -> bool
    ensures { result ≡ is_comment (begin.now ++ more.now) }
{
    if begin.is_empty() {
        is_comment(more)
    } else {
        is_comment(begin)
    }
}
