//! The state of reading a harmonics file that was read in part.

ghost use Rattle.std.specs.Prelude.{◌≡◌, ◌+◌, ◌<◌, ◌≤◌, ◌^◌, ◌++◌, ◌∷◌, [], length, false, IfOk, MatchResult};
ghost use Rattle.harmonics_text.specs.Workings.BookParsing.{IsBookParser, placed, book_in};
ghost use Rattle.harmonics_text.specs.Workings.Readers.{
  IsProgress,
  ReturnsAt,
  FailsAt,
  has_lf,
  nothing_read,
  reached,
  with_pending,
  with_bytes,
  ended,
  finished,
};
ghost use Rattle.std.specs.Result.{result_err};

use crate::book_parser::BookParser;
use crate::fault::{BookFault, LineFault, Why};
use crate::lines::next_line;
use crate::pending::Pending;
use harmonics_book::Book;
use std::alloc::{AllocError, Global};

/// The state of reading a harmonics file of which only the first bytes were read. These may end
/// anywhere, also within a line.
#[derive(Drop)]
pub struct Progress {
    /// The parser's state after the lines whose LF was read.
    pub parser: BookParser,
    /// The number of the line whose LF was not read yet, counted from 1.
    pub number: u32,
    /// The bytes read of this line; of a comment only its `#`.
    pub pending: Pending,
}

/// Returns `fault`, found in the line with the number `line`, as a fault of the file.
fn at_line(line: u32, fault: LineFault) -> BookFault
    ensures { result ≡ placed line fault }
{
    match fault {
        LineFault::NoMemory => BookFault::NoMemory,
        LineFault::Bad(why) => BookFault::At { line, why },
    }
}

impl Progress {
    /// Returns the state before the first byte of a file.
    ///
    /// # Errors
    /// [`AllocError`]: if memory runs out.
    pub fn new(alloc: Global) -> Result<Progress, AllocError>
        ensures { IfOk result (λ p. p ≡ nothing_read) }
    {
        let pending = Pending::new(alloc)?;
        Ok(Progress {
            parser: BookParser::Count,
            number: 1,
            pending,
        })
    }

    /// Reads `piece`, the next bytes of the file. A line that begins and ends in `piece` isn't
    /// copied. After an error no more bytes may be read: the state is unspecified.
    ///
    /// # Errors
    /// [`BookFault::At`]: with the first line that breaks a rule, if its LF or its byte 4,097 is in
    /// `piece`. [`BookFault::NoMemory`]: if memory runs out.
    pub fn read_piece(&mut self, alloc: Global, piece: &[u8]) -> Result<(), BookFault>
        requires valid { IsProgress self.old }
        requires count_bound { self.old.number + length piece.now < 2 ^ 32 }
        ensures { ReturnsAt (reached self.new (result_err result))
            (with_bytes self.old.parser self.old.number (self.old.pending ++ piece.now)) }
    {
        let Some((last, rest)) = next_line(piece) else {
            return self.add_rest(piece);
        };
        if let Err(fault) = self.pending.end(last) {
            return Err(at_line(self.number, fault));
        }
        let line = self.pending.whole(last);
        let (number, rest) = add_lines(&mut self.parser, self.number, alloc, line, rest)?;
        self.number = number;
        self.pending.clear();
        self.add_rest(rest)
    }

    /// Reads `rest`, the next bytes of a line, without its LF.
    ///
    /// # Errors
    /// [`BookFault::At`]: if the line becomes too long. [`BookFault::NoMemory`]: if memory runs
    /// out.
    #[tactic(auto, unfolding(crate::specs::Workings::Readers::with_pending))]
    fn add_rest(&mut self, rest: &[u8]) -> Result<(), BookFault>
        ensures { ReturnsAt (reached self.new (result_err result))
            (with_pending self.old.parser self.old.number (self.old.pending ++ rest.now)) }
    {
        match self.pending.add(rest) {
            Ok(()) => Ok(()),
            Err(fault) => Err(at_line(self.number, fault)),
        }
    }

    /// Reads the last line, if the file ends without an LF after it.
    ///
    /// # Errors
    /// [`BookFault::At`]: if this line breaks a rule. [`BookFault::NoMemory`]: if memory runs out.
    #[tactic(auto, unfolding(crate::specs::Workings::Readers::ended))]
    pub fn end(&mut self, alloc: Global) -> Result<(), BookFault>
        requires valid { IsProgress self.old }
        requires count_bound { self.old.number + 1 < 2 ^ 32 }
        ensures { MatchResult result (λ _. finished self.new.number (book_in self.new.parser) ≡ ended self.old)
            (λ fault. FailsAt fault (ended self.old)) }
    {
        if self.pending.is_empty() {
            return Ok(());
        }
        let line = self.pending.as_slice();
        let (number, _) = add_lines(&mut self.parser, self.number, alloc, line, &[])?;
        self.number = number;
        self.pending.clear();
        Ok(())
    }

    /// Returns the book of the file, after [`Progress::end`] has returned without an error.
    ///
    /// # Errors
    /// [`BookFault::At`] with [`Why::CutShort`]: if the file ends before its tables or its last
    /// station are complete.
    pub fn into_book(self) -> Result<Book, BookFault>
        ensures { ReturnsAt result (finished self.number (book_in self.parser)) }
    {
        match self.parser.into_book() {
            Some(book) => Ok(book),
            None => Err(BookFault::At {
                line: self.number,
                why: Why::CutShort,
            }),
        }
    }
}

/// Reads the line `first`, which has the number `number`, and then each line of `bytes` up to its
/// last LF. Returns the number of the line after them and the bytes after the last LF. If a line is
/// bad, returns the fault of the first bad one.
fn add_lines<'a>(
    parser: &mut BookParser,
    mut number: u32,
    alloc: Global,
    first: &[u8],
    bytes: &'a [u8],
) -> Result<(u32, &'a [u8]), BookFault>
    requires valid { IsBookParser parser.old }
    requires one { has_lf first.now ≡ false }
    requires count_bound { number + length bytes.now + 1 < 2 ^ 32 }
    ensures exact { MatchResult result
        (λ r. with_bytes parser.old number (first.now ++ 10 ∷ bytes.now) ≡ with_pending parser.new r.0 r.1.now)
        (λ e. FailsAt e (with_bytes parser.old number (first.now ++ 10 ∷ bytes.now))) }
    ensures shorter { IfOk result (λ r. length r.1.now ≤ length bytes.now) }
{
    let mut line = first;
    let mut rest = bytes;
    'lines: loop {
        match parser.add_lines(alloc, line, rest) {
            Ok((absent, remaining)) => {
                number += 1 + absent;
                rest = remaining;
            }
            Err(fault) => return Err(at_line(number, fault)),
        }
        match next_line(rest) {
            Some((next, after)) => {
                line = next;
                rest = after;
            }
            None => return Ok((number, rest)),
        }
    }
}
