//! The law of comma-separated values.

ghost use Rattle.std.specs.Prelude.{◌≡◌, ℕ, List, [], ◌∷◌, All, map, codes};
ghost use Rattle.curve_law.specs.declared.event.Event.{Event};
ghost use Rattle.harmonics_book.specs.declared.book.Units.{Units};
ghost use Rattle.listing.specs.declared.row.Row.{Row};
ghost use Rattle.listing.specs.Listings.{plain_events_of, plain_heights_of};
ghost use Rattle.listing.specs.Records.{csv_events_of, csv_heights_of, event_fields, event_header, row_fields, row_header};
ghost use Rattle.text_laws.specs.Lines.{IsLevel};
ghost use Rattle.text_laws.specs.Rows.{records_in, AreOneList, ShowOneEvent, ShowOneLevel};
ghost use Rattle.zone_time.specs.declared.zone.Zone.{Zone};

/// Proves that a reader of comma-separated values (RFC 4180) gets back what was written: the header,
/// and then the fields of each event or level, whatever bytes the station's name has.
pub fn records_read_back()
    ensures events { (name : List ℕ) (units : Units) (events : List Event) (zone : Zone) →
        records_in (csv_events_of name units events zone) ≡ event_header ∷ map (event_fields name units zone) events }
    ensures heights { (name : List ℕ) (units : Units) (rows : List Row) (zone : Zone) →
        records_in (csv_heights_of name units rows zone) ≡ row_header ∷ map (row_fields name units zone) rows }
{}

/// Proves that the comma-separated listing and the plain listing show the same list: after the header
/// there is one record for each line after the station's name, in the same order. A record and its line
/// have the same minute, local time and unit, and the same name of the event, if there is one; the line
/// has the record's level, rounded to hundredths. Each record has the station's name.
pub fn csv_and_plain_show_one_list()
    ensures events { (name : List ℕ) (units : Units) (events : List Event) (zone : Zone) → All (λ event. IsLevel event.level) events →
        AreOneList event_header name (ShowOneEvent name zone) (csv_events_of name units events zone)
        (plain_events_of name units events zone) }
    ensures heights { (name : List ℕ) (units : Units) (rows : List Row) (zone : Zone) → All (λ row. IsLevel row.level) rows →
        AreOneList row_header name (ShowOneLevel name zone) (csv_heights_of name units rows zone) (plain_heights_of name units rows zone) }
{}

/// Proves an example of reading comma-separated values: a header and one record, in which the station's
/// name has a comma and quotes and is therefore written in quotes.
#[tactic(auto, unfolding(csv::specs::Machine::next_record, csv::specs::Reading::records_from, csv::specs::Reading::strip_bom))]
pub fn worked_records()
    ensures { records_in (codes "station,level\n\"Pier, \"\"old\"\"\",1.000000\n")
        ≡ (codes "station" ∷ codes "level" ∷ []) ∷ (codes "Pier, \"old\"" ∷ codes "1.000000" ∷ []) ∷ [] }
{}
