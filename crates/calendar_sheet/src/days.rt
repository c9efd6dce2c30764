//! The dates of a calendar.

ghost use Rattle.std.specs.Prelude.{◌≡◌, ◌+◌, ◌≤◌, pos, unsigned_abs, ◌+ℤ◌, ◌-ℤ◌, ◌≤ℤ◌, ◌<ℤ◌, All, fold};
ghost use Rattle.std.specs.Int.{int_min, int_max};
ghost use Rattle.calendar_sheet.specs.Calendars.{day_in, event_days, first_day, last_day};
ghost use Rattle.calendar_sheet.specs.Workings.Dates.{AreDays, IsAmong};
ghost use Rattle.zone_time.specs.Dates.{IsDay};
ghost use Rattle.zone_time.specs.Zones.{InZoneYears};

use curve_law::Event;
use zone_time::{MINUTES_OF_DAY, ZoneClock};

/// A range of dates from `first` to `last`, both included. Dates are day numbers, counted from
/// 1970-01-01 as day 0.
#[derive(Clone, Copy)]
pub struct Days {
    pub first: i64,
    pub last: i64,
}

impl Days {
    /// Returns the shortest range that contains this one and `day`.
    fn with_day(self, day: i64) -> Days
        requires days { AreDays self.first self.last }
        requires day { IsDay day }
        ensures exact { result ≡ record { first = int_min self.first day; last = int_max self.last day } }
        ensures days { AreDays result.first result.last }
    {
        Days {
            first: self.first.min(day),
            last: self.last.max(day),
        }
    }

    /// Returns the shortest range that contains this one and the local date of `event`.
    fn with_event(self, event: &Event, zone: &ZoneClock<'_>) -> Days
        requires days { AreDays self.first self.last }
        requires year { InZoneYears event.now.minute }
        ensures exact { result ≡ record {
          first = int_min self.first (day_in zone.now event.now.minute);
          last = int_max self.last (day_in zone.now event.now.minute);
        } }
        ensures days { AreDays result.first result.last }
    {
        self.with_day(local_day(zone, event.minute))
    }

    /// Returns the shortest range that contains this one and the local dates of `events`.
    fn with_events(self, events: &[Event], zone: &ZoneClock<'_>) -> Days
        requires days { AreDays self.first self.last }
        requires years { All (λ event. InZoneYears event.minute) events.now }
        ensures exact { result ≡ record {
          first = fold int_min self.first (event_days zone.now events.now);
          last = fold int_max self.last (event_days zone.now events.now);
        } }
        ensures days { AreDays result.first result.last }
    {
        let mut days = self;
        for event in events {
            days = days.with_event(event, zone);
        }
        days
    }

    /// Returns the number of days in this range, at most 3,652,425. The first day isn't after the last,
    /// and the days are in the years 0 to 9999.
    pub fn count(self) -> usize
        requires { AreDays self.first self.last }
        ensures value { result ≡ unsigned_abs (self.last -ℤ self.first) + 1 }
        ensures small { result ≤ 3652425 }
    {
        self.day_index(self.last) + 1
    }

    /// Returns the day that is `index` days after the first day of this range, as a day number
    /// (1970-01-01 is 0). It isn't after the last day.
    pub fn day_at(self, index: usize) -> i64
        requires days { AreDays self.first self.last }
        requires index { pos index ≤ℤ (self.last -ℤ self.first) }
        ensures { result ≡ self.first +ℤ pos index }
    {
        self.first + index as i64
    }

    /// Returns the number of days from the first day of this range to `day`, which is in the range.
    /// Days are numbers, with 1970-01-01 as 0.
    pub fn day_index(self, day: i64) -> usize
        requires days { AreDays self.first self.last }
        requires least { self.first ≤ℤ day }
        requires most { day ≤ℤ self.last }
        ensures value { pos result ≡ day -ℤ self.first }
        ensures small { result ≤ 3652424 }
    {
        (day - self.first) as usize
    }
}

/// Returns the local date of `minute` in `zone`, as a day number with 1970-01-01 as 0. `minute` is
/// counted from 1970-01-01T00:00Z, in the years 2 to 9300 or on the day before them.
pub fn local_day(zone: &ZoneClock<'_>, minute: i64) -> i64
    requires minute { InZoneYears minute }
    ensures exact { result ≡ day_in zone.now minute }
    ensures day { IsDay result }
{
    zone.local(minute).minute.div_euclid(MINUTES_OF_DAY)
}

/// Returns the range of local dates in `zone` from the earliest to the latest date of `begin`,
/// `end - 1` and the `events`. `begin` is before `end`. Minutes are counted from 1970-01-01T00:00Z, in
/// the years 2 to 9300 or on the day before them.
pub fn days_of(events: &[Event], zone: &ZoneClock<'_>, begin: i64, end: i64) -> Days
    requires begin { InZoneYears begin }
    requires end { InZoneYears end }
    requires some { begin <ℤ end }
    requires years { All (λ event. InZoneYears event.minute) events.now }
    ensures exact { result ≡ record { first = first_day zone.now events.now begin end; last = last_day zone.now events.now begin end } }
    ensures days { AreDays result.first result.last }
    ensures among { All (IsAmong zone.now result.first result.last) events.now }
{
    days_between(zone, begin, end - 1).with_events(events, zone)
}

/// Returns the days from the earlier to the later of the local dates of `minute` and of `other`, both
/// included.
fn days_between(zone: &ZoneClock<'_>, minute: i64, other: i64) -> Days
    requires minute { InZoneYears minute }
    requires other { InZoneYears other }
    ensures exact { result ≡ record {
      first = int_min (day_in zone.now minute) (day_in zone.now other);
      last = int_max (day_in zone.now minute) (day_in zone.now other);
    } }
    ensures days { AreDays result.first result.last }
{
    let day = local_day(zone, minute);
    let alone = Days {
        first: day,
        last: day,
    };
    alone.with_day(local_day(zone, other))
}
