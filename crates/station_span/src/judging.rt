//! The check of a certificate's tracks.

ghost use Rattle.std.specs.Prelude.{◌≡◌, ◌<◌, ◌^◌, length, option_map};
ghost use Rattle.std.specs.Option.{ForSome};
ghost use Rattle.curve_law.specs.Verdicts.{verdict};
ghost use Rattle.event_list.specs.Events.{span_minutes};
ghost use Rattle.event_list.specs.FreshCurves.{IsFreshOver};
ghost use Rattle.station_span.specs.Rejections.{slack_fault, fault_from, track_fault, rejection_of, HasFewCells};

use crate::rejection::Rejection;
use cert_checker::check_track;
use cert_text::TrackName;
use curve_law::{Cells, Curve, Tracks, Verdict};
use event_list::Span;

/// Returns the first fault of `tracks`, a certificate's cells for each curve, over the minutes of
/// `span`, or `None` if they are right. The checks in order: the slack track is present exactly if
/// there is a curve `slack`; the cells of each track cover `span`, and each agrees with the track's
/// curve (several minutes without an event by the curve's rate, one minute by its values). Each
/// curve has a value at each minute of `span` and at its end, and hasn't been evaluated yet. The
/// call doesn't allocate.
#[tactic(auto, unfolding(crate::specs::Rejections::rejection_of))]
pub fn rejection_over<A: Curve + Drop, B: Curve + Drop>(
    turn: A,
    slack: Option<B>,
    mark: Option<B>,
    span: &Span,
    tracks: &Tracks,
) -> Option<Rejection>
    requires turn { IsFreshOver span.now (A.state turn) }
    requires slack { ForSome slack (λ c. IsFreshOver span.now (B.state c)) }
    requires mark { ForSome mark (λ c. IsFreshOver span.now (B.state c)) }
    requires count_bound { HasFewCells tracks.now }
    ensures { result ≡ rejection_of (record {
      turn = (A.state turn).curve_model.curve_spec;
      slack = option_map (λ c. (B.state c).curve_model.curve_spec) slack;
      mark = option_map (λ c. (B.state c).curve_model.curve_spec) mark;
    }) span.now tracks.now }
{
    if let Some(fault) = slack_fault(slack.is_some(), tracks.slack.is_some()) {
        return Some(fault);
    }
    if let Some(fault) = track_fault(TrackName::Turn, turn, &tracks.turn, span) {
        return Some(fault);
    }
    if let Some(fault) = fault_if_followed(TrackName::Slack, slack, &tracks.slack, span) {
        return Some(fault);
    }
    fault_if_followed(TrackName::Mark, mark, &tracks.mark, span)
}

/// Returns a rejection unless the slack track is present exactly if it is required.
fn slack_fault(is_asked: bool, is_there: bool) -> Option<Rejection>
    ensures { result ≡ slack_fault is_asked is_there }
{
    match (is_asked, is_there) {
        (true, false) => Some(Rejection::SlackWanted),
        (false, true) => Some(Rejection::SlackNotWanted),
        _ => None,
    }
}

/// Returns the first fault of a track's cells, or `None` if there is no curve or the cells are right.
fn fault_if_followed<C: Curve + Drop>(
    track: TrackName,
    curve: Option<C>,
    cells: &Option<Cells>,
    span: &Span,
) -> Option<Rejection>
    requires fresh { ForSome curve (λ c. IsFreshOver span.now (C.state c)) }
    requires count_bound { ForSome cells.now (λ cells. length cells < 2 ^ 32) }
    ensures { result ≡ track_fault span.now track (option_map (λ c. (C.state c).curve_model.curve_spec) curve) cells.now }
{
    match (curve, cells) {
        (Some(curve), Some(cells)) => track_fault(track, curve, cells, span),
        _ => None,
    }
}

/// Returns the first fault of `cells` in the track `track`, or `None` if they are right.
fn track_fault<C: Curve + Drop>(
    track: TrackName,
    curve: C,
    cells: &Cells,
    span: &Span,
) -> Option<Rejection>
    requires fresh { IsFreshOver span.now (C.state curve) }
    requires count_bound { length cells.now < 2 ^ 32 }
    ensures { result ≡ fault_from track (verdict (C.state curve).curve_model.curve_spec span.now.begin (span_minutes span.now) cells.now) }
{
    let mut curve = curve;
    fault_from(track, check_track(&mut curve, cells, span.begin, span.end))
}

/// Returns the verdict `finding` on `track` as a rejection, or `None` if it accepts.
fn fault_from(track: TrackName, finding: Verdict) -> Option<Rejection>
    ensures { result ≡ fault_from track finding }
{
    match finding {
        Verdict::Accepted => None,
        wrong => Some(Rejection::Track(track, wrong)),
    }
}
