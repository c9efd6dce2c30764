//! A position in a text that is read line by line.

ghost use Rattle.std.specs.Prelude.{◌≡◌, ◌≤◌, ℕ, List, Option, length, IfNone, MatchOption, MatchResult};
ghost use Rattle.decimal_text.specs.declared.limits.TheConstants.{MOST_BYTES};
ghost use Rattle.cert_text.specs.ByLine.{TakesExactly, place_at, first_item, any_line, is_next, end_of_text};

use crate::fault::CertFault;
use crate::lines::next_line;
use std::marker::Model;

/// A form of items in a list with one item on each line: it says which lines are items, and which
/// item each of them is.
pub trait ItemForm {
    /// The type of an item.
    type Item: Drop;

    /// The item on a line without its LF, or `None` if the line isn't an item.
    ghost item_of: { Self → List ℕ → Option Self.Item };

    /// Returns the item on `line`, which is without its LF, or `None` if `line` isn't an item.
    fn read_item(&self, line: &[u8]) -> Option<Self::Item>
        ensures { result ≡ item_of self.now line.now };
}

/// A position in a text that is read line by line. In contracts its value is the number of lines
/// read, the unread lines, and the bytes after the last LF.
#[derive(Drop)]
pub struct LineCursor<'a> {
    rest: &'a [u8],
    lines_read: u32,
}

impl<'a> Model for LineCursor<'a> {
    ghost use Rattle.std.specs.Prelude.{◌+◌, ◌≤◌, length};
    ghost use Rattle.decimal_text.specs.declared.limits.TheConstants.{MOST_BYTES};
    ghost use Rattle.cert_text.specs.ByLine.{Place, place_at};

    ghost Value = { Place };

    ghost view = { λ c. place_at c.lines_read c.rest.now };

    ghost invariant = { λ c. c.lines_read + length c.rest.now ≤ MOST_BYTES };
}

impl<'a> LineCursor<'a> {
    /// Returns the position before the first line of `bytes`, a text of at most 400,000,000 bytes.
    pub fn new(bytes: &'a [u8]) -> LineCursor<'a>
        requires { length bytes.now ≤ MOST_BYTES }
        ensures { result ≡ place_at 0 bytes.now }
    {
        LineCursor {
            rest: bytes,
            lines_read: 0,
        }
    }

    /// Reads the next line and returns it without its LF. Bytes after the last LF aren't a line.
    ///
    /// # Errors
    /// [`CertFault::NotACertificate`] with the number of the next line, counted from 1, if there is
    /// no further LF.
    pub fn next(&mut self) -> Result<&'a [u8], CertFault>
        ensures { MatchResult result (λ line. any_line self.old ≡ Ok (line.now, self.new)) (λ fault. any_line self.old ≡ Err fault) }
    {
        let Some((line, rest)) = next_line(self.rest) else {
            return Err(CertFault::NotACertificate {
                line: self.lines_read + 1,
            });
        };
        self.rest = rest;
        self.lines_read += 1;
        Ok(line)
    }

    /// Returns [`CertFault::NotACertificate`] with the number of lines read, which is the number of
    /// the line that was read last.
    pub fn fault(&self) -> CertFault
        ensures { result ≡ CertFault.NotACertificate self.now.lines_read }
    {
        CertFault::NotACertificate {
            line: self.lines_read,
        }
    }

    /// Returns true if the next line, which must be ended by LF, is `word`. Nothing is read.
    pub fn is_next(&self, word: &str) -> bool
        ensures { result ≡ is_next word.now self.now.lines }
    {
        match next_line(self.rest) {
            None => false,
            Some((line, _)) => line == word.as_bytes(),
        }
    }

    /// Reads the next line and returns the item on it. If there is no further line, or it isn't an
    /// item of `form`, nothing is read and the result is `None`.
    pub fn take_item<F: ItemForm>(&mut self, form: &F) -> Option<F::Item>
        ensures item { MatchOption result (first_item (F.item_of form.now) self.old ≡ None) (λ item. first_item (F.item_of form.now) self.old ≡ Some (item, self.new)) }
        ensures none { IfNone result (self.new ≡ self.old) }
    {
        let (line, rest) = next_line(self.rest)?;
        let item = form.read_item(line)?;
        self.rest = rest;
        self.lines_read += 1;
        Some(item)
    }

    /// Checks that no byte is unread. Nothing is read.
    ///
    /// # Errors
    /// [`CertFault::NotACertificate`] with the number of the next line, counted from 1, if a byte
    /// is unread.
    pub fn finish(&self) -> Result<(), CertFault>
        ensures { TakesExactly end_of_text self.now self.now result }
    {
        if self.rest.is_empty() {
            Ok(())
        } else {
            Err(CertFault::NotACertificate {
                line: self.lines_read + 1,
            })
        }
    }
}
