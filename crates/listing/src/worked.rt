//! Listings worked out by hand.

ghost use Rattle.std.specs.Prelude.{◌≡◌, [], ◌∷◌, ◌++◌, false, pos, negsuc, codes, Some, None};
ghost use Rattle.harmonics_book.specs.declared.book.Units.{Units};
ghost use Rattle.harmonics_book.specs.Worked.{pier_book};
ghost use Rattle.station_table.specs.Worked.{dock_rows};
ghost use Rattle.zone_time.specs.declared.zone.Zone.{Zone};
ghost use Rattle.listing.specs.Listings.{plain_events_of, plain_heights_of, clock_text_of, highest_text_of};
ghost use Rattle.listing.specs.Records.{csv_events_of, csv_heights_of};
ghost use Rattle.listing.specs.StationLists.{stations_text_of};
ghost use Rattle.event_text.specs.Worked.{high_tide, low_tide};
ghost use Rattle.listing.specs.Worked.{level_now};

/// Proves examples of listings in lines, for a station `Pier` with levels in feet.
///
/// - `events`: a low water at 06:00 and a high water at 11:59 on 2000-01-10, in universal time.
/// - `heights`: a level of 1 foot at 03:00 UTC, in a zone 300 minutes (5 hours) behind UTC: 22:00 on
///   the date before. `negsuc 299` is -300.
/// - `clock`: minute 15791220 is 2000-01-10T03:00Z; the level at this minute is 1 foot (1,000,000
///   millionths) and falls; then there is the next low water.
/// - `highest`: minute 15791040 is 2000-01-10T00:00Z; the highest level is 1 foot.
pub fn worked_listings()
    ensures events { plain_events_of (codes "Pier") Units.Feet (low_tide ∷ high_tide ∷ []) Zone.Utc
        ≡ codes "Pier\n2000-01-10 06:00 UTC      -1.00 feet  Low Tide\n2000-01-10 11:59 UTC       1.00 feet  High Tide\n" }
    ensures heights { plain_heights_of (codes "Pier") Units.Feet (level_now ∷ []) (Zone.Fixed (negsuc 299))
        ≡ codes "Pier\n2000-01-09 22:00 -05:00       1.00 feet\n" }
    ensures clock { clock_text_of (codes "Pier") Units.Feet (pos 15791220) (pos 1000000) false (low_tide ∷ []) Zone.Utc
        ≡ codes "Pier\nNow 2000-01-10 03:00 UTC       1.00 feet  Falling\n2000-01-10 06:00 UTC      -1.00 feet  Low Tide\n" }
    ensures highest { highest_text_of (codes "Pier") Units.Feet (pos 15791040) (pos 1000000) Zone.Utc
        ≡ codes "Pier\nHighest 2000-01-10 00:00 UTC       1.00 feet\n" }
{}

/// Proves examples of listings as comma-separated values.
///
/// - `event`: a low water at 2000-01-10T06:00Z in a zone 300 minutes (5 hours) behind UTC (`negsuc 299`
///   is -300): the field `moment` is in universal time and `local` in the zone's time.
/// - `quoted`: a level of 1 knot at 03:00 UTC; a name with a comma and quotes is put in quotes, and
///   each of its quotes is doubled.
/// - `none`: without events there is only the header.
pub fn worked_records()
    ensures event { csv_events_of (codes "Pier") Units.Feet (low_tide ∷ []) (Zone.Fixed (negsuc 299))
        ≡ codes "station,moment,local,event,level,units\nPier,2000-01-10T06:00Z,2000-01-10 01:00,Low Tide,-1.000000,feet\n" }
    ensures quoted { csv_heights_of (codes "Pier, \"old\"") Units.Knots (level_now ∷ []) Zone.Utc
        ≡ codes "station,moment,local,level,units\n\"Pier, \"\"old\"\"\",2000-01-10T03:00Z,2000-01-10 03:00,1.000000,knots\n" }
    ensures none { csv_events_of (codes "Pier") Units.Feet [] Zone.Utc ≡ codes "station,moment,local,event,level,units\n" }
{}

/// Proves an example of the list of stations: `Pier` of the harmonics file, and three rows of a table.
/// The row `Lost` names the reference `Nowhere`, which the harmonics file doesn't have, so its unit is
/// `-`.
#[tactic(auto, unfolding(crate::specs::StationLists::stations_text_of, event_text::specs::Lines::text_of_unit))]
pub fn worked_stations()
    ensures { stations_text_of pier_book dock_rows
        ≡ codes "Ref feet Pier\nSub feet Dock (Pier)\nSub feet Outer (Pier)\nSub - Lost (Nowhere)\n" }
{}
