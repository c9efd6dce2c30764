//! Lines and levels that were computed by hand.

ghost use Rattle.std.specs.Prelude.{◌≡◌, pos, negsuc, codes};
ghost use Rattle.harmonics_book.specs.declared.book.Units.{Units};
ghost use Rattle.curve_law.specs.declared.kind.Kind.{Kind};
ghost use Rattle.zone_time.specs.declared.local.Label.{Label};
ghost use Rattle.event_text.specs.Lines.{level_text, padded, event_line_of, height_line_of};

/// Proves the printed lines of a low and a high tide in feet (levels of -1 and about 1), of a low
/// tide in a zone five hours behind universal time, and of a current's slack water in knots, and
/// the line of a level of 1 meter without an event. Minutes are counted from 1970-01-01T00:00Z
/// (15791400 is 2000-01-10T06:00Z), levels are in millionths of the unit, and `negsuc n` is
/// -(n + 1).
pub fn worked_lines()
    ensures low_tide { event_line_of (record { minute = pos 15791400; label = Label.Utc })
        (record { minute = pos 15791400; kind = Kind.Low; level = negsuc 999999 }) Units.Feet
        ≡ codes "2000-01-10 06:00 UTC      -1.00 feet  Low Tide\n" }
    ensures high_tide { event_line_of (record { minute = pos 15791759; label = Label.Utc })
        (record { minute = pos 15791759; kind = Kind.High; level = pos 999962 }) Units.Feet
        ≡ codes "2000-01-10 11:59 UTC       1.00 feet  High Tide\n" }
    ensures behind { event_line_of (record { minute = pos 15791100; label = Label.Minutes (negsuc 299) })
        (record { minute = pos 15791400; kind = Kind.Low; level = negsuc 999999 }) Units.Feet
        ≡ codes "2000-01-10 01:00 -05:00      -1.00 feet  Low Tide\n" }
    ensures slack { event_line_of (record { minute = pos 15791219; label = Label.Utc })
        (record { minute = pos 15791219; kind = Kind.EbbBegins; level = pos 8727 }) Units.Knots
        ≡ codes "2000-01-10 02:59 UTC       0.01 knots  Slack Ebb Begins\n" }
    ensures height { height_line_of (record { minute = pos 15791040; label = Label.Utc }) (pos 1000000) Units.Meters
        ≡ codes "2000-01-10 00:00 UTC       1.00 meters" }
{}

/// Proves the texts of levels, which are in millionths of the unit, as decimals with two places: a
/// half is rounded away from 0, and a level that rounds to 0 has no sign. Also proves that a text
/// of 6 bytes is right-aligned in 9 columns. `negsuc n` is -(n + 1).
pub fn worked_levels()
    ensures half { level_text (pos 5000) ≡ codes "0.01" }
    ensures below_half { level_text (pos 4999) ≡ codes "0.00" }
    ensures negative_half { level_text (negsuc 4999) ≡ codes "-0.01" }
    ensures no_sign { level_text (negsuc 4998) ≡ codes "0.00" }
    ensures half_of_more { level_text (negsuc 2344999) ≡ codes "-2.35" }
    ensures padded_left { padded 9 (level_text (negsuc 12345678)) ≡ codes "   -12.35" }
{}
