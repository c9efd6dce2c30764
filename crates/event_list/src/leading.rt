//! Which of three tracks has the first of their next events.

ghost use Rattle.std.specs.Prelude.{◌≡◌};
ghost use Rattle.event_list.specs.Merging.{leading, leads};
ghost use Rattle.event_list.specs.Workings.Coming.{IsLeading};

use crate::rank::comes_before;
use curve_law::Event;

/// Which of a station's tracks (high and low waters, slack waters, or crossings of a mark) has the
/// first of their next events in listing order: by minute, then by kind, then by level.
#[derive(Clone, Copy)]
pub enum Leading {
    /// The track of high and low waters.
    Turn,
    /// The track of slack waters.
    Slack,
    /// The track of the crossings of a mark (a level that the request names).
    Mark,
}

/// Returns the track with the first event in listing order (by minute, then by kind, then by level)
/// among `turn`, `slack` and `mark`, the next events of three tracks. Of equal events the first
/// argument is chosen. If no track has an event, returns [`Leading::Turn`].
pub fn leading_of(turn: Option<Event>, slack: Option<Event>, mark: Option<Event>) -> Leading
    ensures first { IsLeading result turn slack mark }
    ensures which { result ≡ leading turn slack mark }
{
    if leads(turn, slack) {
        if leads(turn, mark) {
            Leading::Turn
        } else {
            Leading::Mark
        }
    } else if leads(slack, mark) {
        Leading::Slack
    } else {
        Leading::Mark
    }
}

/// Returns true if `first` is an event that `second` isn't listed before, or if there is no `second`.
fn leads(first: Option<Event>, second: Option<Event>) -> bool
    ensures { result ≡ leads first second }
{
    match (first, second) {
        (_, None) => true,
        (None, Some(_)) => false,
        (Some(a), Some(b)) => !comes_before(&b, &a),
    }
}
