//! The law of lines.

ghost use Rattle.std.specs.Prelude.{All};
ghost use Rattle.curve_law.specs.declared.event.Event.{Event};
ghost use Rattle.event_text.specs.Lines.{event_line_in};
ghost use Rattle.harmonics_book.specs.declared.book.Units.{Units};
ghost use Rattle.listing.specs.declared.row.Row.{Row};
ghost use Rattle.listing.specs.Listings.{row_line_in};
ghost use Rattle.text_laws.specs.Lines.{IsLevel, IsLine};
ghost use Rattle.text_laws.specs.Pages.{line_of, CalendarLine};
ghost use Rattle.zone_time.specs.declared.zone.Zone.{Zone};

/// Proves that the line of an event, of a level (`heights`) or of a calendar's date (`dates`) ends with
/// LF and has no other byte below 32, so it is one line. Levels are at most 2^63 millionths in absolute
/// value.
pub fn lines_end_once()
    ensures events { (zone : Zone) (units : Units) (event : Event) → IsLevel event.level → IsLine (event_line_in zone units event) }
    ensures heights { (zone : Zone) (units : Units) (row : Row) → IsLevel row.level → IsLine (row_line_in zone units row) }
    ensures dates { (zone : Zone) (units : Units) (calendar_line : CalendarLine)
        → All (λ event. IsLevel event.level) calendar_line.events → IsLine (line_of zone units calendar_line) }
{}
