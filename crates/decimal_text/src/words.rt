//! A list of texts that can't be changed, such as the arguments of a command line.

ghost use Rattle.std.specs.Prelude.{◌≡◌, List, ℕ, IfOk};

use crate::text::Text;
use std::alloc::AllocError;
use std::marker::Model;

/// A list of texts, which can't be changed. In contracts its value is a list of lists: for each
/// text in order, its UTF-8 bytes.
#[derive(Clone, Drop)]
pub struct Words {
    items: Vec<Text>,
}

impl Model for Words {
    ghost Value = { List (List ℕ) };

    ghost view = { λ w. w.items.items };
}

impl Words {
    /// Returns the list with the texts in `items`, which are moved into it. It doesn't allocate.
    /// In contracts `items.items` is the list of the items in the vector.
    pub fn from_vec(items: Vec<Text>) -> Words
        ensures { result ≡ items.items }
    {
        Words { items }
    }

    /// Borrows the texts, in order, as a slice.
    pub fn as_slice(&self) -> &[Text]
        ensures { result.now ≡ self.now }
    {
        self.items.as_slice()
    }

    /// Returns a second list with the same texts.
    ///
    /// # Errors
    /// [`AllocError`]: if memory runs out.
    pub fn copy(&self) -> Result<Words, AllocError>
        ensures { IfOk result (λ w. w ≡ self.now) }
    {
        self.clone()
    }
}
