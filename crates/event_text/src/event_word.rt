//! The names of events.

/// The name of an event in tide and current tables: high and low tides; a current's greatest
/// (`Max`) and least (`Min`) floods and ebbs, and its slack waters before a flood or an ebb; and
/// rises past a mark (a level at which crossings are listed) and falls to it.
#[derive(Clone, Copy, PartialEq, Eq)]
pub enum EventWord {
    HighTide,
    LowTide,
    MaxFlood,
    MinFlood,
    MaxEbb,
    MinEbb,
    SlackFloodBegins,
    SlackEbbBegins,
    MarkRising,
    MarkFalling,
}

impl EventWord {
    ghost use Rattle.std.specs.Prelude.{◌≡◌, ◌≤◌, length};
    ghost use Rattle.event_text.specs.Words.{word_text};

    /// Returns the text that is printed for this name, such as `Low Tide`: ASCII of at most 18
    /// bytes.
    pub fn text(self) -> &'static str
        ensures text { result.now ≡ word_text self }
        ensures length_bound { length result.now ≤ 18 }
    {
        match self {
            EventWord::HighTide => "High Tide",
            EventWord::LowTide => "Low Tide",
            EventWord::MaxFlood => "Max Flood",
            EventWord::MinFlood => "Min Flood",
            EventWord::MaxEbb => "Max Ebb",
            EventWord::MinEbb => "Min Ebb",
            EventWord::SlackFloodBegins => "Slack Flood Begins",
            EventWord::SlackEbbBegins => "Slack Ebb Begins",
            EventWord::MarkRising => "Mark Rising",
            EventWord::MarkFalling => "Mark Falling",
        }
    }
}
