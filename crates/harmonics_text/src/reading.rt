//! Reading a harmonics file that is in memory.

ghost use Rattle.std.specs.Prelude.{◌≡◌, ◌≤◌, length, IfOk};
ghost use Rattle.harmonics_book.specs.Books.{IsBook};
ghost use Rattle.harmonics_text.specs.Reading.{ReturnsBook, book_of};
ghost use Rattle.decimal_text.specs.declared.limits.TheConstants.{MOST_BYTES};

use crate::book_reader::BookReader;
use crate::fault::BookFault;
use harmonics_book::Book;
use std::alloc::Global;

/// Returns the book in `bytes`, the content of a harmonics file of at most 400,000,000 bytes.
///
/// The file has the format of the text files that XTide's tools write: constituents with their
/// speeds, a table of equilibrium arguments, a table of node factors, and the stations. Lines that
/// begin with `#` and blank lines are skipped, and names are in ISO 8859-1. The fields of [`Book`]
/// give the units and ranges of the numbers. The bytes are read once, line by line.
///
/// # Errors
/// [`BookFault::At`]: with the number, counted from 1, of the first line that breaks a rule, and
/// the reason; or if the file ends too early. [`BookFault::NoMemory`]: if memory runs out.
///
/// # Examples
/// ```
/// let text =
///     b"1\nS2 30\n1999\n1\nS2\n0\n*END*\n1\nS2\n1\n*END*\nPier\n0:00 :UTC\n0 feet\nS2 1 0\n";
/// let book = read_book(rt.alloc(), text)?;
/// assert_eq!(rt; book.stations.as_slice().len(), 1);
/// let why = Why::BadNumber;
/// let fault = read_book(rt.alloc(), b"1\nS2 30,0\n").err();
/// assert_eq!(rt; fault, Some(BookFault::At { line: 2, why }));
/// ```
pub fn read_book(alloc: Global, bytes: &[u8]) -> Result<Book, BookFault>
    requires { length bytes.now ≤ MOST_BYTES }
    ensures exact { ReturnsBook result (book_of bytes.now) }
    ensures valid { IfOk result IsBook }
{
    let mut reader = BookReader::new(alloc)?;
    // The reader keeps a fault: `finish` returns it again.
    let _ = reader.feed(bytes);
    reader.finish()
}
