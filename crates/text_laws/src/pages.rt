//! The law of calendars.

ghost use Rattle.std.specs.Prelude.{◌≡◌, ℕ, ℤ, pos, negsuc, ◌+ℤ◌, ◌≤ℤ◌, ◌<ℤ◌, All, List, [], ◌∷◌};
ghost use Rattle.std.specs.List.{flat_map, AllPairs};
ghost use Rattle.calendar_sheet.specs.Calendars.{calendar_text_of, day_in, days_through, events_on};
ghost use Rattle.curve_law.specs.declared.event.Event.{Event};
ghost use Rattle.event_text.specs.Worked.{high_tide, low_tide};
ghost use Rattle.harmonics_book.specs.declared.book.Units.{Units};
ghost use Rattle.text_laws.specs.Lines.{listing_of, IsLevel};
ghost use Rattle.text_laws.specs.Pages.{DatesAscend, IsCalendar};
ghost use Rattle.text_laws.specs.Worked.{goes_back};
ghost use Rattle.zone_time.specs.declared.zone.Zone.{Zone};

/// Proves that a calendar shows each event exactly once, on the line of its local date.
///
/// - `shown`: the calendar of the minutes from `begin` up to but not including `end` has a line for
///   each local date, from the earliest to the latest date of `begin`, `end` - 1 and the events. The
///   events of a line keep their order; all lines together keep it too, if no event has an earlier
///   local date than an event before it (a clock may go back to the date before).
/// - `no_minute`: if `end` isn't after `begin`, the calendar has only the station's name.
pub fn calendar_shows_each_event_once()
    ensures shown { (name : List ℕ) (units : Units) (events : List Event) (zone : Zone) (begin end : ℤ) → begin <ℤ end
        → All (λ event. IsLevel event.level) events →
        IsCalendar name units zone events begin end (calendar_text_of name units events zone begin end) }
    ensures no_minute { (name : List ℕ) (units : Units) (events : List Event) (zone : Zone) (begin end : ℤ) → end ≤ℤ begin →
        calendar_text_of name units events zone begin end ≡ listing_of name [] }
{}

/// Proves that a calendar lists the event `late` before the event `early` if the local date of `late`
/// is the day before the local date of `early`, because the clock went back in between. Dates are day
/// numbers.
pub fn dates_that_go_back_change_the_order()
    ensures { (zone : Zone) (early late : Event) (day : ℤ) →
        day_in zone early.minute ≡ day +ℤ pos 1 → day_in zone late.minute ≡ day →
        flat_map (events_on zone (early ∷ late ∷ [])) (days_through day (day +ℤ pos 1)) ≡ late ∷ early ∷ [] }
{}

/// Proves that events in the order of their minutes are also in the order of their local dates, in
/// universal time and in a zone with a fixed offset.
pub fn fixed_clocks_keep_the_order()
    ensures universal { (events : List Event) → AllPairs (λ event later. event.minute ≤ℤ later.minute) events
        → DatesAscend Zone.Utc events }
    ensures fixed { (utc_offset : ℤ) (events : List Event) → AllPairs (λ event later. event.minute ≤ℤ later.minute) events
        → DatesAscend (Zone.Fixed utc_offset) events }
{}

/// Proves examples of the events on a date, for a low water at 06:00 and a high water at 11:59 UTC on
/// 2000-01-10, which is day 10966.
///
/// - `universal`: in universal time day 10966 has both.
/// - `first`, `second`: in a zone 840 minutes (14 hours) ahead of UTC they are at 20:00 on day 10966
///   and at 01:59 on day 10967.
pub fn worked_dates()
    ensures universal { events_on Zone.Utc (low_tide ∷ high_tide ∷ []) (pos 10966) ≡ low_tide ∷ high_tide ∷ [] }
    ensures first { events_on (Zone.Fixed (pos 840)) (low_tide ∷ high_tide ∷ []) (pos 10966) ≡ low_tide ∷ [] }
    ensures second { events_on (Zone.Fixed (pos 840)) (low_tide ∷ high_tide ∷ []) (pos 10967) ≡ high_tide ∷ [] }
{}

/// Proves an example of a zone with a clock that goes back one hour at 1970-01-01T23:59Z (minute 1439),
/// from 00:59 on 2 January (day 1) to 23:59 on 1 January (day 0): the local date of minute 1385 is day
/// 1, and of the later minute 1439 day 0.
#[tactic(auto, unfolding(zone_time::specs::ZoneFiles::clock_minute, zone_time::specs::ZoneFiles::ahead_after))]
pub fn worked_dates_that_go_back()
    ensures early { day_in goes_back (pos 1385) ≡ pos 0 +ℤ pos 1 }
    ensures late { day_in goes_back (pos 1439) ≡ pos 0 }
{}
