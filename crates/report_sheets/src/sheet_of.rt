//! A sheet of any layout.

ghost use Rattle.std.specs.Prelude.{◌≡◌, []};
ghost use Rattle.report_sheets.specs.Sheets.{IsLimit, first_head};

use crate::collected::Collected;
use crate::head::Head;
use crate::layout::Layout;
use crate::sheet::Sheet;
use crate::taken::Taken;
use curve_law::Event;
use decimal_text::{Bytes, Text};
use std::alloc::{AllocError, Global};
use std::marker::PhantomData;

/// A sheet (page of a report) that collects its events and writes its text by the layout `L`.
#[derive(Drop)]
pub struct SheetOf<L> {
    collected: Collected,
    layout: PhantomData<L>,
}

impl<L: Layout> SheetOf<L> {
    /// Returns a sheet (page of a report) that accepts at most `limit` events, from 1 to 1,000,000. It
    /// has no events yet, and a head with an empty name, the unit feet and minute 0. The call doesn't
    /// allocate.
    pub fn new(alloc: Global, limit: u32) -> SheetOf<L>
        requires { IsLimit limit }
        ensures sheet_spec { ⟦<SheetOf<L> as Sheet>⟧.sheet_spec result ≡ L.sheet limit }
        ensures heading { ⟦<SheetOf<L> as Sheet>⟧.heading result ≡ first_head }
        ensures list { ⟦<SheetOf<L> as Sheet>⟧.list result ≡ [] }
    {
        SheetOf {
            collected: Collected::new(alloc, limit),
            layout: PhantomData,
        }
    }
}

impl<L: Layout> Sheet for SheetOf<L> {
    ghost sheet_spec = { λ sheet. L.sheet sheet.collected.limit };

    ghost heading = { λ sheet. sheet.collected.head };

    ghost list = { λ sheet. sheet.collected.events.items };

    ghost limited = { λ sheet. rw (L.limited sheet.collected.limit) sheet.collected.limited };

    fn named(&self, word: &Text) -> bool {
        word.as_str() == L::word()
    }

    fn open(&mut self, head: &Head) -> Result<(), AllocError> {
        self.collected.open(head)
    }

    fn take(&mut self, event: &Event) -> Result<Taken, AllocError> {
        self.collected.take(event)
    }

    fn text(&self) -> Result<Bytes, AllocError> {
        let alloc = *self.collected.events.allocator();
        L::text(
            alloc,
            &self.collected.head,
            self.collected.events.as_slice(),
        )
    }
}
