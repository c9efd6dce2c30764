//! The cells of a station's curves.

ghost use Rattle.std.specs.Prelude.{◌≡◌, IfOk};
ghost use Rattle.station_span.specs.declared.purpose.Purpose.{Purpose};
ghost use Rattle.station_span.specs.Following.{tracks_of};
ghost use Rattle.station_span.specs.Workings.Finds.{site_of};

use curve_law::Tracks;
use rate_bound::Version;
use station_span::{FoundStation, mark_curve, slack_curve, tracks_over, turn_curve};
use std::alloc::{AllocError, Global};

/// Returns the cells (stretches of minutes with at most one event) of each track (high and low
/// waters, slack waters if listed, mark if any) of the station `found_station`, over the minutes of
/// its reference station whose events the offsets can move into the span.
///
/// # Errors
/// [`AllocError`] if memory runs out.
pub fn find_tracks(alloc: Global, found_station: &FoundStation) -> Result<Tracks, AllocError>
    requires { found_station.now.purpose ≡ Purpose.Events }
    ensures { IfOk result (λ tracks. tracks ≡ tracks_of found_station.now.curve.book (site_of found_station.now) found_station.now.span_request) }
{
    let turn = turn_curve(found_station, Version::Second);
    let slack = slack_curve(found_station, Version::Second);
    let mark = mark_curve(found_station, Version::Second);
    tracks_over(alloc, turn, slack, mark, &found_station.span)
}
