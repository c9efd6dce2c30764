//! The check of a certificate's tracks.

ghost use Rattle.std.specs.Prelude.{◌≡◌};
ghost use Rattle.station_span.specs.Rejections.{HasFewCells};
ghost use Rattle.station_span.specs.declared.purpose.Purpose.{Purpose};
ghost use Rattle.station_span.specs.Workings.Finds.{site_of};
ghost use Rattle.tide_answer.specs.Answers.{version_of};
ghost use Rattle.tide_answer.specs.Asking.{request_by_certificate};
ghost use Rattle.tide_answer.specs.Workings.Certifying.{rejection_in};

use cert_text::Certificate;
use rate_bound::Version;
use station_span::{FoundStation, Rejection, mark_curve, rejection_over, slack_curve, turn_curve};

/// Returns the first fault of the tracks (lists of cells) of the certificate `cert`, or `None` if
/// all are right. The checks in order: the slack track is present exactly if the station's slack
/// waters are listed; the cells of each track cover the span and agree with the track's curve, by
/// the rules of the certificate's version. `found_station` was found for the station, span and mark
/// of `cert`. The call doesn't allocate.
pub fn find_rejection(found_station: &FoundStation, cert: &Certificate) -> Option<Rejection>
    requires purpose { found_station.now.purpose ≡ Purpose.Events }
    requires same { found_station.now.span_request ≡ request_by_certificate cert.now }
    requires count_bound { HasFewCells cert.now.tracks }
    ensures { result ≡ rejection_in found_station.now.curve.book (site_of found_station.now) cert.now }
{
    let version = version_of(cert);
    let turn = turn_curve(found_station, version);
    let slack = slack_curve(found_station, version);
    let mark = mark_curve(found_station, version);
    rejection_over(turn, slack, mark, &found_station.span, &cert.tracks)
}

/// Returns the version of the rates (bounds on how much a curve changes in a minute) by which `cert` is
/// checked.
fn version_of(cert: &Certificate) -> Version
    ensures { result ≡ version_of cert.now }
{
    if cert.version == 1 {
        Version::First
    } else {
        Version::Second
    }
}
