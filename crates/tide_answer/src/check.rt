//! The answer of the command `check`: the check of a certificate.

ghost use Rattle.std.specs.Prelude.{◌≡◌, ◌≤◌, length, All, None, IfOk};
ghost use Rattle.cert_text.specs.Certificates.{IsCertificate};
ghost use Rattle.decimal_text.specs.declared.limits.TheConstants.{MOST_BYTES};
ghost use Rattle.decimal_text.specs.Expected.{EqualsUnlessNoMemory};
ghost use Rattle.event_text.specs.Lines.{IsListed};
ghost use Rattle.station_span.specs.Rejections.{HasFewCells};
ghost use Rattle.station_span.specs.declared.purpose.Purpose.{Purpose};
ghost use Rattle.station_span.specs.Following.{events_of};
ghost use Rattle.station_span.specs.Workings.Finds.{site_of};
ghost use Rattle.tide_answer.specs.Answers.{checked, judged};
ghost use Rattle.tide_answer.specs.Asking.{request_by_certificate};
ghost use Rattle.tide_answer.specs.Workings.Certifying.{judged_in, rejection_in};
ghost use Rattle.tide_fault.specs.Faults.{refusal_is_out_of_memory};

use crate::certificate_rejection::find_rejection;
use crate::requests::request_of_certificate;
use crate::text::{Answer, accepted_line, rejected, text_alone};
use cert_text::{Certificate, certificates_have_one_text, read_certificate};
use curve_law::Events;
use decimal_text::Bytes;
use event_list::{merged, shifted};
use listing::push_plain_events;
use station_span::{FoundStation, Purpose, SpanRequest, StationData, find_station, rejection_line};
use std::alloc::{AllocError, Global};
use tide_fault::Refusal;
use zone_time::ZoneClock;

/// Returns the answer of the command `check` for the certificate with the text `bytes`. If the
/// certificate is valid, the answer is `Accepted` and the events of the certificate's span in the local
/// time of `zone`; otherwise it is one line that reports the first fault of the certificate.
///
/// # Errors
/// [`Refusal::NotACertificate`] if `bytes` isn't the text of a certificate; otherwise, for the station,
/// the span and the mark of the certificate, the first [`Refusal`] in this order: the station isn't
/// found, it is a hydraulic current, the span is backward or outside the file's years, the station's
/// constants exceed a limit ([`Refusal::TooLarge`] or [`Refusal::TooSteep`]), the span is longer than
/// 5,270,400 minutes, or there is a mark but the offsets of the station's high and low waters differ.
#[tactic(auto, unfolding(crate::specs::Answers::checked))]
pub fn check(
    alloc: Global,
    stations: &StationData<'_>,
    bytes: &[u8],
    zone: &ZoneClock<'_>,
) -> Result<Answer, Refusal>
    requires count_bound { length bytes.now ≤ MOST_BYTES }
    ensures { EqualsUnlessNoMemory refusal_is_out_of_memory (checked stations.now.book stations.now.table bytes.now zone.now) result }
{
    let cert = read_certificate(alloc, bytes)?;
    certificates_have_one_text();
    judge(alloc, stations, &cert, zone)
}

/// Returns the result of checking the certificate `cert`.
fn judge(
    alloc: Global,
    stations: &StationData<'_>,
    cert: &Certificate,
    zone: &ZoneClock<'_>,
) -> Result<Answer, Refusal>
    requires cert { IsCertificate cert.now }
    requires count_bound { HasFewCells cert.now.tracks }
    ensures { EqualsUnlessNoMemory refusal_is_out_of_memory (judged_in stations.now.book stations.now.table cert.now zone.now) result }
{
    let request = request_of_certificate(cert);
    let found_station = find_station(alloc, stations, Purpose::Events, &request)?;
    match find_rejection(&found_station, cert) {
        None => Ok(accept(alloc, &found_station, cert, zone)?),
        Some(rejection) => Ok(rejected(rejection_line(alloc, rejection)?)),
    }
}

/// Returns the events of the cells of a valid certificate, which are all events of its span.
fn accept(
    alloc: Global,
    found_station: &FoundStation,
    cert: &Certificate,
    zone: &ZoneClock<'_>,
) -> Result<Answer, AllocError>
    requires purpose { found_station.now.purpose ≡ Purpose.Events }
    requires same { found_station.now.span_request ≡ request_by_certificate cert.now }
    requires cert { IsCertificate cert.now }
    requires valid { rejection_in found_station.now.curve.book (site_of found_station.now) cert.now ≡ None }
    ensures { IfOk result (λ answer. answer ≡ judged found_station.now.curve.book (site_of found_station.now) cert.now zone.now None) }
{
    let events = events_of(alloc, found_station, cert)?;
    let mut text = accepted_line(alloc)?;
    push_plain_events(
        &mut text,
        &cert.station,
        found_station.units,
        &events,
        zone.zone(),
    )?;
    Ok(text_alone(Bytes::from_vec(text)))
}

/// Returns the events of a valid certificate's cells.
fn events_of(
    alloc: Global,
    found_station: &FoundStation,
    cert: &Certificate,
) -> Result<Events, AllocError>
    requires purpose { found_station.now.purpose ≡ Purpose.Events }
    requires same { found_station.now.span_request ≡ request_by_certificate cert.now }
    requires cert { IsCertificate cert.now }
    requires valid { rejection_in found_station.now.curve.book (site_of found_station.now) cert.now ≡ None }
    ensures exact { IfOk result (λ events. events ≡ events_of found_station.now.curve.book (site_of found_station.now) (request_by_certificate cert.now)) }
    ensures listed { IfOk result (All (IsListed found_station.now.curve.station.units)) }
{
    let events = merged(alloc, &cert.tracks, found_station.span.begin)?;
    let SpanRequest { begin, end, .. } = found_station.span_request;
    shifted(alloc, &events, &found_station.basis, begin, end)
}
