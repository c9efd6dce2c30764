//! The trait of sheets.

ghost use Rattle.std.specs.Prelude.{◌≡◌, List, [], IfOk, OnOk, OnErr};
ghost use Rattle.std.specs.Str.{bytes_eq};
ghost use Rattle.curve_law.specs.declared.event.Event.{Event};
ghost use Rattle.event_text.specs.Lines.{IsListed};
ghost use Rattle.report_sheets.specs.declared.head.Head.{Head};
ghost use Rattle.report_sheets.specs.Sheets.{SheetSpec, IsLimit, IsHead, taken_of, list_after};

use crate::head::Head;
use crate::taken::Taken;
use curve_law::Event;
use decimal_text::{Bytes, Text};
use std::alloc::AllocError;

/// A page of a report. It is opened with a head (the station's name, the unit and the minute of the
/// report), accepts events up to its limit, and returns its text for this head and these events.
///
/// The word that requests the sheet, its limit and its layout never change.
pub trait Sheet: Drop {
    /// The word, the limit and the layout of the sheet.
    ghost sheet_spec: { Self → SheetSpec };

    /// The head with which the sheet was last opened.
    ghost heading: { Self → Head };

    /// The events that the sheet has accepted since it was last opened, in the order in which it
    /// accepted them.
    ghost list: { Self → List Event };

    /// Returns true if `word` is the word that requests this sheet. It doesn't allocate.
    fn named(&self, word: &Text) -> bool
        ensures { result ≡ bytes_eq word.now (sheet_spec self.now).word };

    /// Stores a copy of `head` and removes all events from the sheet.
    ///
    /// The name in `head` has no control characters, and the unit isn't knots squared.
    ///
    /// # Errors
    /// [`AllocError`] if memory runs out: then all events are removed too, and the old head stays.
    fn open(&mut self, head: &Head) -> Result<(), AllocError>
        requires { IsHead head.now }
        ensures unchanged { sheet_spec self.new ≡ sheet_spec self.old }
        ensures empty { list self.new ≡ [] }
        ensures ok { OnOk result (heading self.new ≡ head.entry.now) }
        ensures err { OnErr result (heading self.new ≡ heading self.old) };

    /// Appends `event` to the sheet's events and returns [`Taken::Kept`], or changes nothing and
    /// returns [`Taken::Full`] if there are as many events as the limit.
    ///
    /// The event has a name in the head's unit ([`word`](event_text::word)), a level in millionths of
    /// this unit, and a minute in the years 2 to 9300 or on the day before them.
    ///
    /// # Errors
    /// [`AllocError`] if memory runs out: then nothing changes.
    fn take(&mut self, event: &Event) -> Result<Taken, AllocError>
        requires { IsListed (heading self.old).units event.now }
        ensures unchanged { sheet_spec self.new ≡ sheet_spec self.old }
        ensures heading { heading self.new ≡ heading self.old }
        ensures answer { IfOk result (λ taken. taken ≡ taken_of (sheet_spec self.old).limit (list self.old)) }
        ensures list { OnOk result (list self.new ≡ list_after (sheet_spec self.old).limit (list self.old) event.now) }
        ensures err { OnErr result (list self.new ≡ list self.old) };

    /// Returns the page's text for the sheet's head and events.
    ///
    /// # Errors
    /// [`AllocError`] if memory runs out.
    fn text(&self) -> Result<Bytes, AllocError>
        ensures { IfOk result (λ text. text ≡ (sheet_spec self.now).layout (heading self.now) (list self.now)) };

    /// The limit of a sheet is 1 to 1,000,000 events.
    ghost limited: { (sheet : Self) → IsLimit (sheet_spec sheet).limit };
}
