//! The tracks of a certificate of events.

/// The name of a track of a certificate. A track divides the span into cells (claims about
/// consecutive minutes) and lists the events of two kinds.
#[derive(Clone, Copy, PartialEq, Eq)]
pub enum TrackName {
    /// The track of high and low waters or, for a current, of the highs and lows of its speed.
    Turn,
    /// The track of a current's slack waters, where a flood or an ebb begins.
    Slack,
    /// The track of the minutes after which the level has risen past the mark or fallen to it.
    Mark,
}

impl TrackName {
    ghost use Rattle.std.specs.Prelude.{◌≡◌, ◌≤◌, length};
    ghost use Rattle.cert_text.specs.Tracks.{track_word};
    ghost use Rattle.cert_text.specs.Lines.{heading_of};

    /// Returns the word for this track in its heading: `turn`, `slack` or `mark`.
    #[tactic(auto, unfolding(crate::specs::Tracks::track_word))]
    pub fn word(self) -> &'static str
        ensures text { result.now ≡ track_word self }
        ensures length_bound { length result.now ≤ 5 }
    {
        match self {
            TrackName::Turn => "turn",
            TrackName::Slack => "slack",
            TrackName::Mark => "mark",
        }
    }

    /// Returns the line before this track's cells, such as `track turn`, without its LF.
    #[tactic(auto, unfolding(crate::specs::Tracks::track_word, crate::specs::Lines::heading_of))]
    pub fn heading(self) -> &'static str
        ensures { result.now ≡ heading_of self }
    {
        match self {
            TrackName::Turn => "track turn",
            TrackName::Slack => "track slack",
            TrackName::Mark => "track mark",
        }
    }
}
