//! Loading a book from a file that is read in pieces.

ghost use Rattle.std.specs.Prelude.{◌≡◌, ◌↔◌, ◌≤◌, IsTrue, Err, IfOk};
ghost use Rattle.harmonics_book.specs.Books.{IsBook};
ghost use Rattle.named_files.specs.Loading.{loaded, source_of};
ghost use Rattle.decimal_text.specs.Expected.{Meets, is_outside_fault};
ghost use Rattle.tide_edge.specs.Whole.{HasPassed, OpenedOnce, ReadWithin, one_file};
ghost use Rattle.decimal_text.specs.declared.limits.TheConstants.{MOST_BYTES};

use decimal_text::Text;
use harmonics_book::Book;
use harmonics_text::{BookFault, BookReader};
use std::alloc::{AllocError, Global};
use tide_edge::{Files, ReadAllFault, Receiver, pass_file};

/// The reason why a book (the contents of a harmonics file) couldn't be loaded from a file.
#[derive(Clone, Copy, Debug, PartialEq, Eq)]
pub enum LoadFault {
    /// The file couldn't be opened or read.
    Failed,
    /// The file has more bytes than the caller allows.
    TooLong,
    /// A line of the file breaks a rule of the format, the file ends too early, or memory ran out.
    Book(BookFault),
}

/// Returns the book (constituents, years and stations) in the harmonics file `name` of `files`, if
/// the file has at most `limit` bytes; `limit` is at most 400,000,000. The file is read in pieces
/// of at most 65,536 bytes, which aren't kept. It is read to its end also after a bad line, so that
/// a failed read is reported rather than the bad line. Whatever the result, the file is opened at
/// most once, its end is found at most once, and at most `limit` + 65,536 bytes are read.
///
/// # Errors
/// [`LoadFault::Failed`]: exactly if opening or reading fails, so that `files` counts one more
/// fault. If `files` are steady, so that opening and reading an existing file doesn't fail, it
/// means that there is no file `name`. [`LoadFault::TooLong`]: exactly if more than `limit` bytes
/// were read. [`LoadFault::Book`]: for the first line that breaks a rule, if the file ends too
/// early, or if memory runs out.
///
/// # Examples
/// ```
/// let mut files = MemoryFiles::new(Vec::new(rt.alloc()), Vec::new(rt.alloc()));
/// let name = Text::from_str(rt.alloc(), "harmonics")?;
/// let loaded = load_book(rt.alloc(), &mut files, &name, 1_000);
/// assert_eq!(rt; loaded.err(), Some(LoadFault::Failed));
/// ```
pub fn load_book<F: Files>(
    alloc: Global,
    files: &mut F,
    name: &Text,
    limit: u64,
) -> Result<Book, LoadFault>
    requires { limit ≤ MOST_BYTES }
    ensures own { IsTrue (F.state files.old).file_contents.is_observable
        → Meets source_of (IsTrue (F.state files.old).file_contents.is_steady) (loaded limit ((F.state files.old).file_contents.folder name.now)) result }
    ensures came { OpenedOnce source_of (loaded limit) limit name.now (F.state files.old).open_log (F.state files.new).open_log result }
    ensures valid { IfOk result IsBook }
    ensures too_long { (result ≡ Err LoadFault.TooLong) ↔ HasPassed limit (F.state files.old).open_log (F.state files.new).open_log }
    ensures read { ReadWithin (one_file limit) (is_outside_fault source_of result) (F.state files.old) (F.state files.new) }
{
    let mut feeder = Feeder {
        reader: BookReader::new(alloc)?,
    };
    let passed = pass_file(alloc, files, name, limit, &mut feeder);
    let Feeder { reader } = feeder;
    let book = reader.finish();
    // A failure of reading takes precedence over a bad line.
    passed?;
    Ok(book?)
}

/// Passes the bytes of a file to a reader. It reports no fault of a line: the reader keeps it and
/// returns it when it finishes.
struct Feeder {
    reader: BookReader,
}

impl Receiver for Feeder {
    ghost use Rattle.decimal_text.specs.declared.limits.TheConstants.{MOST_BYTES};

    ghost accepted = { λ feeder. feeder.reader.bytes };

    ghost most = { λ feeder. MOST_BYTES };

    fn take(&mut self, piece: &[u8]) -> Result<(), AllocError> {
        let _ = self.reader.feed(piece);
        Ok(())
    }
}

impl From<ReadAllFault> for LoadFault {
    ghost use Rattle.std.specs.Prelude.{◌≡◌};
    ghost use Rattle.named_files.specs.Loading.{fault_of_reading};

    ghost from_gives = { λ reading fault. fault ≡ fault_of_reading reading };

    fn from(fault: ReadAllFault) -> LoadFault {
        match fault {
            ReadAllFault::Failed => LoadFault::Failed,
            ReadAllFault::TooLong => LoadFault::TooLong,
            ReadAllFault::NoMemory => LoadFault::Book(BookFault::NoMemory),
        }
    }
}

impl From<BookFault> for LoadFault {
    ghost use Rattle.std.specs.Prelude.{◌≡◌};
    ghost use Rattle.named_files.specs.declared.loading.LoadFault.TheVariants.{Book};

    ghost from_gives = { λ form fault. fault ≡ Book form };

    fn from(fault: BookFault) -> LoadFault {
        LoadFault::Book(fault)
    }
}

impl From<AllocError> for LoadFault {
    ghost use Rattle.std.specs.Prelude.{◌≡◌};
    ghost use Rattle.harmonics_text.specs.declared.fault.BookFault.TheVariants.{NoMemory};
    ghost use Rattle.named_files.specs.declared.loading.LoadFault.TheVariants.{Book};

    ghost from_gives = { λ _ fault. fault ≡ Book NoMemory };

    fn from(_: AllocError) -> LoadFault {
        LoadFault::Book(BookFault::NoMemory)
    }
}
