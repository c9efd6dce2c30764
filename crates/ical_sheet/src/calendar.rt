//! The text of a calendar.

ghost use Rattle.std.specs.Prelude.{◌≡◌, ◌++◌, All, IfOk, OnOk};
ghost use Rattle.std.specs.List.{flat_map};
ghost use Rattle.event_text.specs.Lines.{IsListed};
ghost use Rattle.ical_sheet.specs.Calendars.{calendar_of, event_lines, first_lines};
ghost use Rattle.ical_sheet.specs.Folding.{folded};

use crate::event_lines::push_event;
use crate::folding::push_short;
use crate::shared::Shared;
use curve_law::Event;
use decimal_text::Bytes;
use report_sheets::Head;
use std::alloc::{AllocError, Global};

/// Returns an iCalendar text of `events`, or no text if there is none. Each event has a
/// [`word`](event_text::word) in the head's unit, a level in millionths of this unit, and a minute in
/// the years 2 to 9300 or on the day before them.
#[tactic(auto, unfolding(crate::specs::Calendars::calendar_of))]
pub(crate) fn calendar(alloc: Global, head: &Head, events: &[Event]) -> Result<Bytes, AllocError>
    requires { All (IsListed head.now.units) events.now }
    ensures { IfOk result (λ text. text ≡ calendar_of head.entry.now events.now) }
{
    let mut text = Vec::new(alloc);
    if events.is_empty() {
        return Ok(Bytes::from_vec(text));
    }
    push_first_lines(&mut text)?;
    push_events(alloc, &mut text, head, events)?;
    push_short(&mut text, b"END:VCALENDAR")?;
    Ok(Bytes::from_vec(text))
}

/// Appends the lines before the first event.
fn push_first_lines(text: &mut Vec<u8>) -> Result<(), AllocError>
    ensures { OnOk result (text.new.items ≡ text.old.items ++ flat_map folded first_lines) }
{
    push_short(text, b"BEGIN:VCALENDAR")?;
    push_short(text, b"VERSION:2.0")?;
    push_short(text, b"PRODID:-//Tide desk//Tide predictor//EN")
}

/// Appends the lines of each event.
fn push_events(
    alloc: Global,
    text: &mut Vec<u8>,
    head: &Head,
    events: &[Event],
) -> Result<(), AllocError>
    requires { All (IsListed head.now.units) events.now }
    ensures { OnOk result (text.new.items
        ≡ text.old.items ++ flat_map (λ event. flat_map folded (event_lines head.entry.now event)) events.now) }
{
    let shared = Shared::new(alloc, head)?;
    let mut line = String::new(alloc);
    for event in events {
        push_event(text, &mut line, &shared, event)?;
    }
    Ok(())
}
