//! The text of a calendar.

ghost use Rattle.std.specs.Prelude.{◌≡◌, ◌++◌, ◌≤ℤ◌, All, IfOk, OnOk};
ghost use Rattle.std.specs.List.{flat_map};
ghost use Rattle.calendar_sheet.specs.Calendars.{calendar_text_of, entry_in};
ghost use Rattle.calendar_sheet.specs.Workings.Dates.{line_of_page};
ghost use Rattle.event_text.specs.Lines.{IsListed};
ghost use Rattle.zone_time.specs.Dates.{IsDay, date_text};
ghost use Rattle.zone_time.specs.Zones.{IsZone, InZoneYears};

use crate::calendar_page::CalendarPage;
use crate::pages::pages_shown;
use arrayvec::ArrayString;
use curve_law::{Event, Events};
use decimal_text::{Bytes, Text};
use event_text::{word, write_level};
use harmonics_book::Units;
use std::alloc::{AllocError, Global};
use zone_time::{MINUTES_OF_DAY, Zone, ZoneClock, write_clock, write_date};

/// Returns a line with the station's `name`, and a line for each local date in `zone`, such as
/// `2000-01-10  06:00 -1.00 Low Tide  11:59 1.00 High Tide`. The dates run from the earliest to the
/// latest local date of `begin`, `end - 1` and the events. If `begin` equals `end`, there are no dates.
///
/// `begin` isn't after `end`. Each event has a name in `units` ([`word`]) and a level in millionths of
/// `units`. Minutes are counted from 1970-01-01T00:00Z; each is in the years 2 to 9300 or on the day
/// before them.
///
/// # Errors
/// [`AllocError`] if memory runs out.
///
/// # Examples
/// ```
/// let (begin, end) = (15_791_040, 15_792_480);
/// let dates = calendar_text(alloc, name, units, events, &Zone::Utc, begin, end)?;
/// ```
pub fn calendar_text(
    alloc: Global,
    name: &Text,
    units: Units,
    events: &Events,
    zone: &Zone,
    begin: i64,
    end: i64,
) -> Result<Bytes, AllocError>
    requires zone { IsZone zone.now }
    requires listed { All (IsListed units) events.now }
    requires begin { InZoneYears begin }
    requires end { InZoneYears end }
    requires forward { begin ≤ℤ end }
    ensures { IfOk result (λ text. text ≡ calendar_text_of name.now units events.now zone.now begin end) }
{
    let clock = zone.clock();
    let pages = pages_shown(alloc, events.as_slice(), &clock, begin, end)?;
    let mut text = Vec::from_slice(alloc, name.as_str().as_bytes())?;
    text.push(b'\n')?;
    push_pages(&mut text, units, pages.as_slice(), &clock)?;
    Ok(Bytes::from_vec(text))
}

/// Appends a line for each date.
fn push_pages(
    text: &mut Vec<u8>,
    units: Units,
    pages: &[CalendarPage],
    zone: &ZoneClock<'_>,
) -> Result<(), AllocError>
    requires days { All (λ page. IsDay page.day) pages.now }
    requires listed { All (λ page. All (IsListed units) page.events) pages.now }
    ensures { OnOk result (text.new.items ≡ text.old.items ++ flat_map (line_of_page zone.now units) pages.now) }
{
    for page in pages {
        push_page(text, units, page, zone)?;
    }
    Ok(())
}

/// Appends the line of the date `page`, whose events have names in `units`.
fn push_page(
    text: &mut Vec<u8>,
    units: Units,
    page: &CalendarPage,
    zone: &ZoneClock<'_>,
) -> Result<(), AllocError>
    requires day { IsDay page.now.day }
    requires listed { All (IsListed units) page.now.events }
    ensures { OnOk result (text.new.items ≡ text.old.items ++ line_of_page zone.now units page.now) }
{
    push_date(text, page.day())?;
    for event in page.events() {
        push_entry(text, units, event, zone)?;
    }
    text.push(b'\n')?;
    Ok(())
}

/// Appends the date of the day number `day`, such as `2000-01-10`.
fn push_date(text: &mut Vec<u8>, day: i64) -> Result<(), AllocError>
    requires { IsDay day }
    ensures { OnOk result (text.new.items ≡ text.old.items ++ date_text day) }
{
    let mut date = ArrayString::<10>::new();
    write_date(day, &mut date);
    text.extend_from_slice(date.as_str().as_bytes())
}

/// Appends the local time, the level and the name of `event`.
fn push_entry(
    text: &mut Vec<u8>,
    units: Units,
    event: &Event,
    zone: &ZoneClock<'_>,
) -> Result<(), AllocError>
    requires listed { IsListed units event.now }
    ensures { OnOk result (text.new.items ≡ text.old.items ++ entry_in zone.now units event.now) }
{
    let local = zone.local(event.minute);
    let mut level = ArrayString::new();
    write_level(event.level, &mut level);
    let mut entry = ArrayString::<56>::new();
    entry.push_str("  ");
    write_clock(local.minute.rem_euclid(MINUTES_OF_DAY) as u32, &mut entry);
    entry.push(' ');
    entry.push_str(level.as_str());
    entry.push(' ');
    entry.push_str(word(units, event.kind, event.level).text());
    text.extend_from_slice(entry.as_str().as_bytes())
}
