//! A list that exists only in contracts and proofs.

ghost use Rattle.std.specs.Prelude.{◌≡◌, List, [], ◌++◌};
ghost use Rattle.std.specs.Borrow.{ftrue};

use std::fmt;
use std::marker::{Model, PhantomData};

/// A list of items that exists only in contracts and proofs, as its field `items`. At run time it
/// takes no memory.
#[derive(Drop)]
pub struct Log<T> {
    of: PhantomData<T>,
    pub ghost items: { List T },
}

impl<T> Model for Log<T> {
    ghost also_owns = { λ _. ftrue };
}

impl<T> fmt::Debug for Log<T> {
    fn fmt<W: fmt::Write>(&self, f: &mut fmt::Formatter<W>) -> fmt::Result {
        f.pad("Log")
    }
}

impl<T> Log<T> {
    /// Returns the empty list. It doesn't allocate.
    pub fn new() -> Log<T>
        ensures { result.items ≡ [] }
    {
        Log { of: PhantomData }
    }

    /// Returns the list with the items of this one and then the items of `_items`. Nothing is
    /// copied at run time.
    pub fn then(&self, _items: &[T]) -> Log<T>
        ensures { result.items ≡ self.now.items ++ _items.now }
    {
        Log { of: PhantomData }
    }
}
