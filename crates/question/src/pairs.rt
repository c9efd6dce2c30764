//! A command and its items, before they are checked.

ghost use Rattle.std.specs.Prelude.{◌≡◌};

use crate::origin::Origin;
use decimal_text::Text;
use std::marker::Model;

/// A key with its value, both as text and not checked: an argument of a command line, or a pair of
/// a web query.
#[derive(Drop)]
pub struct Item {
    pub key: Text,
    /// The value of the key, or `None` for an argument without `=`.
    pub value: Option<Text>,
}

/// A list of items: keys with their values, as text. In contracts its value is the list of the
/// items.
#[derive(Drop)]
pub struct Items {
    items: Vec<Item>,
}

impl Model for Items {
    ghost use Rattle.std.specs.Prelude.{List};
    ghost use Rattle.question.specs.declared.pairs.Item.{Item};

    ghost Value = { List Item };

    ghost view = { λ l. l.items.items };
}

impl Items {
    /// Returns the list of the items in `items`. It doesn't allocate.
    pub fn from_vec(items: Vec<Item>) -> Items
        ensures { result ≡ items.items }
    {
        Items { items }
    }

    /// Borrows the items as a slice.
    pub fn as_slice(&self) -> &[Item]
        ensures { result.now ≡ self.now }
    {
        self.items.as_slice()
    }
}

/// A command with its items (keys with their values), as text and not checked. The command is
/// `None` if the command line has no argument.
#[derive(Drop)]
pub struct Pairs {
    pub origin: Origin,
    pub command: Option<Text>,
    pub items: Items,
}
