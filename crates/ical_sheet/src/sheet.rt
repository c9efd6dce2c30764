//! The sheet of a calendar.

ghost use Rattle.std.specs.Prelude.{refl};
ghost use Rattle.ical_sheet.specs.Calendars.{ical_sheet};

use crate::calendar::calendar;
use curve_law::Event;
use decimal_text::Bytes;
use report_sheets::{Head, Layout, SheetOf};
use std::alloc::{AllocError, Global};

/// The sheet (page of a report) called `ical`: a calendar file of type `text/calendar` with an entry
/// for each event, in universal time. Its text is empty if there are no events.
pub type IcalSheet = SheetOf<IcalPage>;

/// Defines the text of the sheet (page of a report) called `ical`; see [`IcalSheet`].
#[derive(Drop)]
pub struct IcalPage;

impl Layout for IcalPage {
    ghost sheet = { ical_sheet };

    ghost limited = { λ _. refl };

    fn word() -> &'static str {
        "ical"
    }

    fn text(alloc: Global, head: &Head, events: &[Event]) -> Result<Bytes, AllocError> {
        calendar(alloc, head, events)
    }
}
