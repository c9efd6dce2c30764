//! Names of events that were computed by hand.

ghost use Rattle.std.specs.Prelude.{◌≡◌, pos, negsuc, false, true, codes};
ghost use Rattle.harmonics_book.specs.declared.book.Units.{Units};
ghost use Rattle.curve_law.specs.declared.kind.Kind.{Kind};
ghost use Rattle.event_text.specs.declared.event_word.EventWord.{EventWord};
ghost use Rattle.event_text.specs.Words.{has_word, word_of, word_text};

/// Proves the printed names of events at levels above, below and at 0, in millionths of the unit
/// (`negsuc 0` is -1). In knots a high or low above 0 is a flood and any other an ebb; in feet and
/// meters the name doesn't depend on the level. Also proves that slack water has no name in meters,
/// that a crossing of a mark (a level at which crossings are listed) has one, and that a high in
/// knots squared has none.
pub fn worked_words()
    ensures flood { word_text (word_of Units.Knots Kind.High (pos 1)) ≡ codes "Max Flood" }
    ensures still { word_text (word_of Units.Knots Kind.High (pos 0)) ≡ codes "Min Ebb" }
    ensures ebb { word_text (word_of Units.Knots Kind.Low (negsuc 0)) ≡ codes "Max Ebb" }
    ensures low_still { word_text (word_of Units.Knots Kind.Low (pos 0)) ≡ codes "Max Ebb" }
    ensures high_ebb { word_text (word_of Units.Knots Kind.High (negsuc 0)) ≡ codes "Min Ebb" }
    ensures low_flood { word_text (word_of Units.Knots Kind.Low (pos 1000000)) ≡ codes "Min Flood" }
    ensures tide { word_text (word_of Units.Feet Kind.High (negsuc 0)) ≡ codes "High Tide" }
    ensures low_tide { word_text (word_of Units.Meters Kind.Low (pos 1)) ≡ codes "Low Tide" }
    ensures slack { word_text (word_of Units.Knots Kind.EbbBegins (pos 0)) ≡ codes "Slack Ebb Begins" }
    ensures slack_flood { word_text (word_of Units.Knots Kind.FloodBegins (pos 0)) ≡ codes "Slack Flood Begins" }
    ensures mark_rising { word_text (word_of Units.Knots Kind.MarkRising (negsuc 0)) ≡ codes "Mark Rising" }
    ensures mark_falling { word_text (word_of Units.Feet Kind.MarkFalling (pos 0)) ≡ codes "Mark Falling" }
    ensures no_slack { has_word Units.Meters Kind.FloodBegins ≡ false }
    ensures mark { has_word Units.Meters Kind.MarkFalling ≡ true }
    ensures hydraulic { has_word Units.KnotsSquared Kind.High ≡ false }
{}
