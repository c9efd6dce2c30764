//! Events by their dates.

ghost use Rattle.std.specs.Prelude.{◌≡◌, pos, ◌-ℤ◌, ◌≤ℤ◌, All, IfOk, map};
ghost use Rattle.calendar_sheet.specs.Calendars.{day_in, days_shown, days_through};
ghost use Rattle.calendar_sheet.specs.Workings.Dates.{AreDays, IsAmong, empty_page, page_of, pages_of};
ghost use Rattle.zone_time.specs.Dates.{IsDay};
ghost use Rattle.zone_time.specs.Zones.{InZoneYears};

use crate::calendar_page::CalendarPage;
use crate::days::{Days, days_of, local_day};
use curve_law::Event;
use std::alloc::{AllocError, Global};
use zone_time::ZoneClock;

/// Returns each local date in `zone` from the earliest to the latest date of `begin`, `end - 1` and the
/// `events`, with the events on this date. If `begin` equals `end`, there are no dates. The call visits
/// each event twice.
///
/// `begin` isn't after `end`. Minutes are counted from 1970-01-01T00:00Z, in the years 2 to 9300 or on
/// the day before them.
///
/// # Errors
/// [`AllocError`] if memory runs out.
pub fn pages_shown(
    alloc: Global,
    events: &[Event],
    zone: &ZoneClock<'_>,
    begin: i64,
    end: i64,
) -> Result<Vec<CalendarPage>, AllocError>
    requires years { All (λ event. InZoneYears event.minute) events.now }
    requires begin { InZoneYears begin }
    requires end { InZoneYears end }
    requires forward { begin ≤ℤ end }
    ensures exact { IfOk result (λ pages. pages.items ≡ map (page_of zone.now events.now) (days_shown zone.now events.now begin end)) }
    ensures days { IfOk result (λ pages. All (λ page. IsDay page.day) pages.items) }
{
    if begin == end {
        return Ok(Vec::new(alloc));
    }
    let days = days_of(events, zone, begin, end);
    pages_of(alloc, events, zone, days)
}

/// Returns the dates of `days`, each with the events on it.
fn pages_of(
    alloc: Global,
    events: &[Event],
    zone: &ZoneClock<'_>,
    days: Days,
) -> Result<Vec<CalendarPage>, AllocError>
    requires days { AreDays days.first days.last }
    requires years { All (λ event. InZoneYears event.minute) events.now }
    requires among { All (IsAmong zone.now days.first days.last) events.now }
    ensures exact { IfOk result (λ pages. pages.items ≡ pages_of zone.now events.now days.first days.last) }
    ensures days { IfOk result (λ pages. All (λ page. IsDay page.day) pages.items) }
{
    let mut pages = empty_pages(alloc, days)?;
    for event in events {
        let index = day_index(event, zone, days);
        pages[index].push(*event)?;
    }
    Ok(pages)
}

/// Returns the dates of `days` without events.
fn empty_pages(alloc: Global, days: Days) -> Result<Vec<CalendarPage>, AllocError>
    requires days { AreDays days.first days.last }
    ensures { IfOk result (λ pages. pages.items ≡ map empty_page (days_through days.first days.last)) }
{
    let mut pages = Vec::new(alloc);
    for index in 0..days.count() {
        pages.push(CalendarPage::new(alloc, days.day_at(index)))?;
    }
    Ok(pages)
}

/// Returns the index in `days`, counted from 0, of the local date of `event`.
fn day_index(event: &Event, zone: &ZoneClock<'_>, days: Days) -> usize
    requires days { AreDays days.first days.last }
    requires year { InZoneYears event.now.minute }
    requires among { IsAmong zone.now days.first days.last event.now }
    ensures { pos result ≡ day_in zone.now event.now.minute -ℤ days.first }
{
    days.day_index(local_day(zone, event.minute))
}
