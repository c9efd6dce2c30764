//! Calendars worked out by hand.

ghost use Rattle.std.specs.Prelude.{◌≡◌, [], ◌∷◌, pos, negsuc, codes};
ghost use Rattle.calendar_sheet.specs.Calendars.{calendar_text_of};
ghost use Rattle.harmonics_book.specs.declared.book.Units.{Units};
ghost use Rattle.event_text.specs.Worked.{high_tide, low_tide};
ghost use Rattle.zone_time.specs.declared.zone.Zone.{Zone};

/// Proves examples of calendars for a low water at 06:00 and a high water at 11:59 UTC on 2000-01-10.
/// Minute 15791040 is 2000-01-10T00:00Z, and the span is up to but not including its end.
///
/// - `universal`: a day in universal time; one date has both events.
/// - `behind`: the same day 300 minutes (5 hours) behind UTC (`negsuc 299` is -300): the span begins on
///   9 January, local time.
/// - `ahead`: the first 12 hours of the day, 840 minutes (14 hours) ahead of UTC: the high water is on
///   11 January, local time.
/// - `no_event`: an hour without events; the line has the date only.
/// - `no_minute`: an empty span; there are no dates.
pub fn worked_calendars()
    ensures universal { calendar_text_of (codes "Pier") Units.Feet (low_tide ∷ high_tide ∷ []) Zone.Utc (pos 15791040) (pos 15792480)
        ≡ codes "Pier\n2000-01-10  06:00 -1.00 Low Tide  11:59 1.00 High Tide\n" }
    ensures behind { calendar_text_of (codes "Pier") Units.Feet (low_tide ∷ high_tide ∷ []) (Zone.Fixed (negsuc 299))
        (pos 15791040) (pos 15792480)
        ≡ codes "Pier\n2000-01-09\n2000-01-10  01:00 -1.00 Low Tide  06:59 1.00 High Tide\n" }
    ensures ahead { calendar_text_of (codes "Pier") Units.Feet (low_tide ∷ high_tide ∷ []) (Zone.Fixed (pos 840))
        (pos 15791040) (pos 15791760)
        ≡ codes "Pier\n2000-01-10  20:00 -1.00 Low Tide\n2000-01-11  01:59 1.00 High Tide\n" }
    ensures no_event { calendar_text_of (codes "Pier") Units.Feet [] Zone.Utc (pos 15791100) (pos 15791160) ≡ codes "Pier\n2000-01-10\n" }
    ensures no_minute { calendar_text_of (codes "Pier") Units.Feet [] Zone.Utc (pos 15791040) (pos 15791040) ≡ codes "Pier\n" }
{}
