//! A reader of a harmonics file that gets the file in several slices, one after the other.

ghost use Rattle.std.specs.Prelude.{◌≡◌, ◌+◌, ◌^◌, ◌++◌, ◌<◌, ◌≤◌, [], length, if◌then◌else◌, is_none, IfOk, IfSome, None};
ghost use Rattle.std.specs.Result.{result_err};
ghost use Rattle.harmonics_book.specs.Books.{IsBook};
ghost use Rattle.harmonics_text.specs.Reading.{ReturnsBook, book_of};
ghost use Rattle.harmonics_text.specs.Pieces.{ReturnsFault, fault_so_far, pending_length};
ghost use Rattle.decimal_text.specs.declared.limits.TheConstants.{MOST_BYTES};

use crate::fault::BookFault;
use crate::progress::Progress;
use ghost_log::Log;
use harmonics_book::Book;
use std::alloc::{AllocError, Global};
use std::marker::Model;

/// A reader of a harmonics file. Each call of [`BookReader::feed`] passes the next bytes of the
/// file, which may end anywhere, also within a line. Of a line that has not ended, the reader keeps
/// the bytes, at most 4,096, or only the `#` if it is a comment.
///
/// In contracts its value has two fields: `bytes`, all bytes that were fed, at most 400,000,000,
/// and `fault`, the fault that `feed` returned, or `None`.
#[derive(Drop)]
pub struct BookReader {
    alloc: Global,
    /// The state of reading after all bytes fed so far; after a fault it isn't used.
    progress: Progress,
    /// The fault that `feed` returned, or `None`.
    fault: Option<BookFault>,
    /// All bytes fed so far, which exist only in contracts.
    history: Log<u8>,
}

impl Model for BookReader {
    ghost use Rattle.harmonics_text.specs.Pieces.{Fed};
    ghost use Rattle.harmonics_text.specs.Workings.Readers.{IsReader, reached};

    ghost Value = { Fed };

    ghost view = { λ r. record { bytes = r.history.items; fault = r.fault } };

    ghost invariant = { λ r. IsReader (reached r.progress r.fault) r.history.items };
}

impl BookReader {
    /// Returns a reader that has got no byte yet. It allocates the memory for a line, 4,096 bytes.
    ///
    /// # Errors
    /// [`AllocError`]: if memory runs out.
    pub fn new(alloc: Global) -> Result<BookReader, AllocError>
        ensures { IfOk result (λ r. r ≡ record { bytes = []; fault = None }) }
    {
        let progress = Progress::new(alloc)?;
        Ok(BookReader {
            alloc,
            progress,
            fault: None,
            history: Log::new(),
        })
    }

    /// Reads `piece`, the next bytes of the file; together with all bytes before they are at most
    /// 400,000,000. Once it has returned a fault, it returns the same one at each later call.
    ///
    /// # Errors
    /// [`BookFault::At`]: with the first line that breaks a rule, as soon as its LF or its byte
    /// 4,097 was fed. [`BookFault::NoMemory`]: if memory runs out.
    pub fn feed(&mut self, piece: &[u8]) -> Result<(), BookFault>
        requires { length self.old.bytes + length piece.now ≤ MOST_BYTES }
        ensures fed { self.new.bytes ≡ self.old.bytes ++ piece.now }
        ensures fault { self.new.fault ≡ result_err result }
        ensures exact { ReturnsFault result (fault_so_far self.new.bytes) }
        ensures again { IfSome self.old.fault (λ fault. result ≡ Err fault) }
    {
        self.history = self.history.then(piece);
        if let Some(fault) = self.fault {
            return Err(fault);
        }
        let read = self.progress.read_piece(self.alloc, piece);
        self.fault = read.err();
        read
    }

    /// Ends the file after the bytes fed, and returns its book. The last line needs no LF.
    ///
    /// # Errors
    /// The fault that [`BookReader::feed`] returned, if it did. Otherwise [`BookFault::At`]: if the
    /// last line breaks a rule, or, with [`crate::Why::CutShort`], if the file ends too early.
    /// [`BookFault::NoMemory`]: if memory runs out.
    pub fn finish(self) -> Result<Book, BookFault>
        ensures exact { ReturnsBook result (book_of self.bytes) }
        ensures again { IfSome self.fault (λ fault. result ≡ Err fault) }
        ensures valid { IfOk result IsBook }
    {
        let BookReader {
            alloc,
            mut progress,
            fault,
            history: _,
        } = self;
        let read = match fault {
            None => progress.end(alloc),
            Some(fault) => Err(fault),
        };
        read.and(progress.into_book())
    }

    /// Returns how many bytes were fed of the line that has not ended, its CR included: from 0 to
    /// 4,096. In a comment, of which only the `#` is kept, and after a fault it returns 0.
    ///
    /// The program itself doesn't call it.
    pub fn pending(&self) -> u32
        ensures exact { result ≡ (if is_none self.now.fault then pending_length self.now.bytes else 0) }
        ensures count_bound { result ≤ 4096 }
    {
        match self.fault {
            None => self.progress.pending.count(),
            Some(_) => 0,
        }
    }
}
