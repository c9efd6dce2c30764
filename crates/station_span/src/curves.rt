//! The curves of a station, with the rates of a certificate's version.

ghost use Rattle.std.specs.Prelude.{◌≡◌, option_map};
ghost use Rattle.std.specs.Option.{ForSome};
ghost use Rattle.rate_bound.specs.CurveSpecs.{turn_spec};
ghost use Rattle.station_span.specs.Following.{asks_slack, slack_times, slack_plus};
ghost use Rattle.station_span.specs.Workings.Curves.{mark_over, slack_over};

use crate::found_station::FoundStation;
use curve_law::Curve;
use harmonics_book::Units;
use rate_bound::{MarkCurve, TurnCurve, Version};
use station_table::Basis;

/// Returns the curve whose changes of sign are the high and low waters of the reference station of
/// `found_station` (for a current, its greatest and least streams). `version` is the certificate version
/// whose rule bounds the curve's change. The curve is not yet evaluated.
pub fn turn_curve<'a>(found_station: &'a FoundStation, version: Version) -> TurnCurve<'a>
    ensures curve_spec { (⟦<TurnCurve<'a> as Curve>⟧.state result).curve_model.curve_spec ≡ turn_spec version found_station.now.curve }
    ensures fresh { (⟦<TurnCurve<'a> as Curve>⟧.state result).count ≡ 0 }
{
    TurnCurve::new(&found_station.curve, version)
}

/// Returns the curve whose changes of sign are the slack waters of the station `found_station`, at
/// minutes of its reference station, or `None` if its slack waters aren't listed: the station isn't a
/// current, or it has different offsets for highs and lows and none for slack waters. `version` is the
/// certificate version whose rule bounds the curve's change. The curve is not yet evaluated.
pub fn slack_curve<'a>(found_station: &'a FoundStation, version: Version) -> Option<MarkCurve<'a>>
    ensures curve_spec { option_map (λ curve. (⟦<MarkCurve<'a> as Curve>⟧.state curve).curve_model.curve_spec) result
        ≡ slack_over version found_station.now.curve found_station.now.basis }
    ensures fresh { ForSome result (λ curve. (⟦<MarkCurve<'a> as Curve>⟧.state curve).count ≡ 0) }
{
    let basis = &found_station.basis;
    if !asks_slack(found_station.units, basis) {
        return None;
    }
    let times = slack_times(basis);
    let plus = slack_plus(basis);
    Some(MarkCurve::new(&found_station.curve, version, times, plus, 0, true))
}

/// Returns the curve whose changes of sign are the crossings of the request's mark by the level of
/// `found_station`, at minutes of its reference station, or `None` if the request has no mark.
/// `version` is the certificate version whose rule bounds the curve's change. The curve is not yet
/// evaluated.
pub fn mark_curve<'a>(found_station: &'a FoundStation, version: Version) -> Option<MarkCurve<'a>>
    ensures curve_spec { option_map (λ curve. (⟦<MarkCurve<'a> as Curve>⟧.state curve).curve_model.curve_spec) result
        ≡ mark_over version found_station.now.curve found_station.now.basis found_station.now.span_request.mark }
    ensures fresh { ForSome result (λ curve. (⟦<MarkCurve<'a> as Curve>⟧.state curve).count ≡ 0) }
{
    match found_station.span_request.mark {
        Some(level) => {
            let high = &found_station.basis.high;
            Some(MarkCurve::new(
                &found_station.curve,
                version,
                high.times,
                high.plus,
                level,
                false,
            ))
        }
        None => None,
    }
}

/// Returns true if a station's slack waters are listed: if it is a current and its slack waters have
/// separate offsets, or its high and low waters have the same offsets.
fn asks_slack(units: Units, basis: &Basis) -> bool
    ensures { result ≡ asks_slack units basis.now }
{
    match units {
        Units::Knots => basis.slack.is_some() || basis.equal(),
        _ => false,
    }
}

/// Returns the factor, in millionths, from the reference's level to a level whose crossings of 0 are
/// the slacks: 1,000,000 if slack waters have separate offsets, otherwise the high waters' factor.
fn slack_times(basis: &Basis) -> i64
    ensures { result ≡ slack_times basis.now }
{
    if basis.slack.is_some() {
        1_000_000
    } else {
        basis.high.times
    }
}

/// Returns the height, in millionths of the unit, added to the reference's level to get a level whose
/// crossings of 0 are the slacks: 0 if slack waters have separate offsets, otherwise the high waters'
/// height.
fn slack_plus(basis: &Basis) -> i64
    ensures { result ≡ slack_plus basis.now }
{
    if basis.slack.is_some() {
        0
    } else {
        basis.high.plus
    }
}
