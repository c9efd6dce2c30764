//! The tracks of the kinds of events, and their words in a certificate.

ghost use Rattle.std.specs.Prelude.{◌≡◌, ◌≤◌, length};
ghost use Rattle.cert_text.specs.Tracks.{track_of};
ghost use Rattle.cert_text.specs.Lines.{prefix_of};
ghost use Rattle.cert_text.specs.Workings.LineReading.{first_kind, second_kind};

use crate::track_name::TrackName;
use curve_law::Kind;

/// Returns the track that lists events of `kind`.
///
/// The program doesn't call this function.
pub fn track_of(kind: Kind) -> TrackName
    ensures { result ≡ track_of kind }
{
    match kind {
        Kind::High | Kind::Low => TrackName::Turn,
        Kind::FloodBegins | Kind::EbbBegins => TrackName::Slack,
        Kind::MarkRising | Kind::MarkFalling => TrackName::Mark,
    }
}

/// Returns the beginning of the line of an event of `kind`, up to its level, such as `t low `.
#[tactic(auto, unfolding(crate::specs::Tracks::kind_word))]
pub(crate) fn prefix_of(kind: Kind) -> &'static str
    ensures text { result.now ≡ prefix_of kind }
    ensures length_bound { length result.now ≤ 8 }
{
    match kind {
        Kind::High => "t high ",
        Kind::Low => "t low ",
        Kind::FloodBegins => "t flood ",
        Kind::EbbBegins => "t ebb ",
        Kind::MarkRising => "t rise ",
        Kind::MarkFalling => "t fall ",
    }
}

/// Returns the first of the two kinds of events that `track` lists: highs, beginnings of floods, or
/// rises past the mark.
pub(crate) fn first_kind(track: TrackName) -> Kind
    ensures { result ≡ first_kind track }
{
    match track {
        TrackName::Turn => Kind::High,
        TrackName::Slack => Kind::FloodBegins,
        TrackName::Mark => Kind::MarkRising,
    }
}

/// Returns the second of the two kinds of events that `track` lists: lows, beginnings of ebbs, or
/// falls to the mark.
pub(crate) fn second_kind(track: TrackName) -> Kind
    ensures { result ≡ second_kind track }
{
    match track {
        TrackName::Turn => Kind::Low,
        TrackName::Slack => Kind::EbbBegins,
        TrackName::Mark => Kind::MarkFalling,
    }
}
