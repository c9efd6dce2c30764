//! The law of zones.

ghost use Rattle.std.specs.Prelude.{◌≡◌, ℕ, ℤ, pos, negsuc, Bool, All, List, codes, slice_set};
ghost use Rattle.curve_law.specs.declared.event.Event.{Event};
ghost use Rattle.harmonics_book.specs.declared.book.Units.{Units};
ghost use Rattle.listing.specs.declared.row.Row.{Row};
ghost use Rattle.listing.specs.Listings.{clock_text_of, highest_text_of, plain_events_of, plain_heights_of};
ghost use Rattle.listing.specs.Records.{event_fields, row_fields, time_in};
ghost use Rattle.text_laws.specs.Labels.{minute_of, DifferInLabel, DifferInLabelAfter};
ghost use Rattle.text_laws.specs.Lines.{AreListings, AreListingsAfter, IsLevel};
ghost use Rattle.zone_time.specs.declared.local.Label.{Label};
ghost use Rattle.zone_time.specs.declared.zone.Zone.{Zone};
ghost use Rattle.zone_time.specs.Locals.{IsLocal};
ghost use Rattle.zone_time.specs.Zones.{local_in};

use zone_time::{Label, Local};

/// Proves that changing the zone changes only the local times in the listings of events and levels and
/// in the texts of the commands `clock` and `highest`.
///
/// - `minute`: a local time with its label determines the minute of universal time.
/// - `events`, `heights`, `clock`, `highest`: for two zones the texts have the station's name and then
///   equally many lines; lines at the same index show the same minute and differ only in its local
///   time.
/// - `event_record`, `row_record`: two records of comma-separated values differ only in the field at
///   index 2, the local time.
pub fn zones_only_label()
    ensures minute { (zone : Zone) (minute : ℤ) → minute_of (local_in zone minute) ≡ minute }
    ensures events { (name : List ℕ) (units : Units) (events : List Event) (zone other : Zone) → All (λ event. IsLevel event.level) events →
        AreListings name (DifferInLabel zone other) (plain_events_of name units events zone) (plain_events_of name units events other) }
    ensures heights { (name : List ℕ) (units : Units) (rows : List Row) (zone other : Zone) → All (λ row. IsLevel row.level) rows →
        AreListings name (DifferInLabel zone other) (plain_heights_of name units rows zone) (plain_heights_of name units rows other) }
    ensures clock { (name : List ℕ) (units : Units) (now level : ℤ) (rising : Bool) (events : List Event) (zone other : Zone) →
        IsLevel level → All (λ event. IsLevel event.level) events →
        AreListingsAfter name (DifferInLabelAfter (codes "Now ") zone other) (DifferInLabel zone other)
        (clock_text_of name units now level rising events zone) (clock_text_of name units now level rising events other) }
    ensures highest { (name : List ℕ) (units : Units) (minute level : ℤ) (zone other : Zone) → IsLevel level →
        AreListings name (DifferInLabelAfter (codes "Highest ") zone other)
        (highest_text_of name units minute level zone) (highest_text_of name units minute level other) }
    ensures event_record { (name : List ℕ) (units : Units) (event : Event) (zone other : Zone) →
        event_fields name units other event ≡ slice_set (event_fields name units zone event) 2 (time_in other event.minute) }
    ensures row_record { (name : List ℕ) (units : Units) (row : Row) (zone other : Zone) →
        row_fields name units other row ≡ slice_set (row_fields name units zone row) 2 (time_in other row.minute) }
{}

/// Returns the minute of universal time, counted from 1970-01-01T00:00Z, at which a clock shows
/// `local`: the minute shown minus the minutes by which the clock is ahead of universal time, according
/// to the label.
///
/// The program doesn't call this function.
pub fn minute_of_local(local: Local) -> i64
    requires { IsLocal local }
    ensures { result ≡ minute_of local }
{
    match local.label {
        Label::Utc => local.minute,
        Label::Minutes(utc_offset) => local.minute - i64::from(utc_offset),
    }
}

/// Proves examples of local times for minute 15791759, which is 2000-01-10T11:59Z.
///
/// - `universal`: universal time shows this minute unchanged.
/// - `behind`: a clock 300 minutes (5 hours) behind UTC shows 15791459 with the label -300
///   (`negsuc 299`).
/// - `same`: this local time with its label determines minute 15791759 again.
pub fn worked_labels()
    ensures universal { minute_of (local_in Zone.Utc (pos 15791759)) ≡ pos 15791759 }
    ensures behind { local_in (Zone.Fixed (negsuc 299)) (pos 15791759)
        ≡ record { minute = pos 15791459; label = Label.Minutes (negsuc 299) } }
    ensures same { minute_of (local_in (Zone.Fixed (negsuc 299)) (pos 15791759)) ≡ pos 15791759 }
{}
