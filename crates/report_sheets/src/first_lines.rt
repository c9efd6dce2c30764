//! The sheet with the first events.

ghost use Rattle.std.specs.Prelude.{◌≡◌, refl, [], ◌++◌, OnOk};
ghost use Rattle.event_text.specs.Lines.{IsListed, event_line_in};
ghost use Rattle.report_sheets.specs.Listings.{first_sheet};
ghost use Rattle.zone_time.specs.declared.zone.Zone.{Zone};

use crate::head::Head;
use crate::layout::Layout;
use crate::sheet_of::SheetOf;
use arrayvec::ArrayString;
use curve_law::Event;
use decimal_text::Bytes;
use event_text::event_line;
use harmonics_book::Units;
use std::alloc::{AllocError, Global};
use zone_time::Zone;

/// The sheet (page of a report) called `first`: the station's name, and a line for each event in
/// universal time, such as `2000-01-10 06:00 UTC      -1.00 feet  Low Tide`.
pub type FirstLines = SheetOf<FirstLinesPage>;

/// Defines the text of the sheet (page of a report) called `first`; see [`FirstLines`].
pub struct FirstLinesPage;

impl Layout for FirstLinesPage {
    ghost sheet = { first_sheet };

    ghost limited = { λ _. refl };

    fn word() -> &'static str {
        "first"
    }

    #[tactic(auto, unfolding(listing::specs::Listings::plain_events_of))]
    fn text(alloc: Global, head: &Head, events: &[Event]) -> Result<Bytes, AllocError> {
        let mut text = head.name_line(alloc)?;
        for event in events {
            push_line(&mut text, head.units, event)?;
        }
        Ok(Bytes::from_vec(text))
    }
}

/// Appends the line of `event` in universal time.
fn push_line(text: &mut Vec<u8>, units: Units, event: &Event) -> Result<(), AllocError>
    requires { IsListed units event.now }
    ensures { OnOk result (text.new.items ≡ text.old.items ++ event_line_in Zone.Utc units event.now) }
{
    let local = Zone::Utc.local(event.minute);
    let mut line = ArrayString::new();
    event_line(&local, event, units, &mut line);
    text.extend_from_slice(line.as_str().as_bytes())
}
