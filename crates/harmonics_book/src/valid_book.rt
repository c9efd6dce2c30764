//! A borrowed book that is proved to be valid.

ghost use Rattle.std.specs.Prelude.{◌≡◌};
ghost use Rattle.harmonics_book.specs.Books.{IsBook};

use crate::book::Book;
use std::marker::Model;

/// A borrowed book that is proved to be valid: the counts of its parts, its names and its numbers
/// are in the ranges of a harmonics file. In contracts its value is the book.
#[derive(Drop)]
pub struct ValidBook<'a> {
    book: &'a Book,
}

impl<'a> Model for ValidBook<'a> {
    ghost use Rattle.harmonics_book.specs.declared.book.Book.{Book};

    ghost Value = { Book };

    ghost use Rattle.harmonics_book.specs.Books.{IsBook};

    ghost view = { λ valid. valid.book.now };

    ghost invariant = { λ valid. IsBook valid.book.now };
}

impl<'a> ValidBook<'a> {
    /// Returns `book` as a valid book. Callers prove that the counts of its parts, its names and
    /// its numbers are in the ranges of a harmonics file; nothing is checked at run time.
    pub fn new(book: &'a Book) -> ValidBook<'a>
        requires { IsBook book.now }
        ensures { result ≡ book.now }
    {
        ValidBook { book }
    }

    /// Borrows the book, which is proved to be valid.
    pub fn get(&self) -> &'a Book
        ensures exact { result.now ≡ self.now }
        ensures valid { IsBook self.now }
    {
        self.book
    }
}
