//! The layouts of sheets.

ghost use Rattle.std.specs.Prelude.{◌≡◌, ℕ, All, IfOk};
ghost use Rattle.event_text.specs.Lines.{IsListed};
ghost use Rattle.report_sheets.specs.Sheets.{SheetSpec};

use crate::head::Head;
use curve_law::Event;
use decimal_text::Bytes;
use std::alloc::{AllocError, Global};

/// A kind of sheet (page of a report): the word that requests it, and the text that it writes for a
/// head and a list of events.
pub trait Layout {
    /// The definition of the sheet that accepts at most this number of events: its word, its limit and
    /// its text.
    ghost sheet: { ℕ → SheetSpec };

    /// Returns the word that requests this sheet on the command line, such as `tally`.
    fn word() -> &'static str
        ensures { (limit : ℕ) → result.now ≡ (sheet limit).word };

    /// Returns the page's text for `head` and `events`. Each event has a name in the unit of `head`
    /// ([`word`](event_text::word)), a level in millionths of this unit, and a minute in the years 2 to
    /// 9300 or on the day before them.
    ///
    /// # Errors
    /// [`AllocError`] if memory runs out.
    fn text(alloc: Global, head: &Head, events: &[Event]) -> Result<Bytes, AllocError>
        requires { All (IsListed head.now.units) events.now }
        ensures { (limit : ℕ) → IfOk result (λ text. text ≡ (sheet limit).layout head.entry.now events.now) };

    /// The limit is the greatest number of events that the sheet accepts.
    ghost limited: { (limit : ℕ) → (sheet limit).limit ≡ limit };
}
