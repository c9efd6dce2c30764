//! Owned text in UTF-8.

ghost use Rattle.std.specs.Prelude.{◌≡◌, List, ℕ, [], IfOk, string_bytes};

use std::alloc::{AllocError, Global};
use std::marker::Model;

/// An owned text in UTF-8, which can't be changed. In contracts its value is the list of its bytes.
#[derive(Clone, Debug, Drop)]
pub struct Text {
    text: String,
}

impl Model for Text {
    ghost Value = { List ℕ };

    ghost view = { λ t. string_bytes t.text };
}

impl Text {
    /// Returns the empty text. It doesn't allocate.
    pub fn empty(alloc: Global) -> Text
        ensures { result ≡ [] }
    {
        Text {
            text: String::new(alloc),
        }
    }

    /// Returns a text with the bytes of `text`, which are copied.
    ///
    /// # Errors
    /// [`AllocError`]: if memory runs out.
    pub fn from_str(alloc: Global, text: &str) -> Result<Text, AllocError>
        ensures { IfOk result (λ t. t ≡ text.now) }
    {
        Ok(Text {
            text: String::from_str(alloc, text)?,
        })
    }

    /// Borrows the text as a `str` with the same bytes.
    pub fn as_str(&self) -> &str
        ensures { result.now ≡ self.now }
    {
        self.text.as_str()
    }

    /// Returns a second text with the same bytes.
    ///
    /// # Errors
    /// [`AllocError`]: if memory runs out.
    pub fn copy(&self) -> Result<Text, AllocError>
        ensures { IfOk result (λ t. t ≡ self.now) }
    {
        self.clone()
    }
}
