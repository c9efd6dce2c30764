//! The name of an event.

ghost use Rattle.std.specs.Prelude.{◌≡◌, IsTrue};
ghost use Rattle.event_text.specs.Words.{has_word, word_of};

use crate::event_word::EventWord;
use curve_law::Kind;
use harmonics_book::Units;

/// Returns the name in tide and current tables of an event of this `kind` at `level`, in millionths
/// of the unit. In knots a high or low is a flood if `level` is above 0, and otherwise an ebb.
/// `kind` must have a name in the unit: none has one in knots squared (a hydraulic current), and
/// slack water has one only in knots.
pub fn word(units: Units, kind: Kind, level: i64) -> EventWord
    requires { IsTrue (has_word units kind) }
    ensures { result ≡ word_of units kind level }
{
    match kind {
        Kind::High => high_word(units, level),
        Kind::Low => low_word(units, level),
        Kind::FloodBegins => EventWord::SlackFloodBegins,
        Kind::EbbBegins => EventWord::SlackEbbBegins,
        Kind::MarkRising => EventWord::MarkRising,
        Kind::MarkFalling => EventWord::MarkFalling,
    }
}

fn high_word(units: Units, level: i64) -> EventWord
    ensures { result ≡ word_of units Kind.High level }
{
    match units {
        Units::Knots if level > 0 => EventWord::MaxFlood,
        Units::Knots => EventWord::MinEbb,
        _ => EventWord::HighTide,
    }
}

fn low_word(units: Units, level: i64) -> EventWord
    ensures { result ≡ word_of units Kind.Low level }
{
    match units {
        Units::Knots if level > 0 => EventWord::MinFlood,
        Units::Knots => EventWord::MaxEbb,
        _ => EventWord::LowTide,
    }
}
