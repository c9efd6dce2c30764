//! The answers of the commands `highest` and `peak`: the highest water of a station over a span, and its
//! certificate.

ghost use Rattle.std.specs.Prelude.{◌≡◌, IfOk};
ghost use Rattle.decimal_text.specs.Expected.{EqualsUnlessNoMemory};
ghost use Rattle.tide_answer.specs.Answers.{highest, highest_text_at, peak_certified};
ghost use Rattle.tide_answer.specs.Workings.Peaks.{peak_certificate_in};
ghost use Rattle.tide_fault.specs.Faults.{refusal_is_out_of_memory};
ghost use Rattle.station_span.specs.Workings.Finds.{HasPeak, site_of};
ghost use Rattle.station_span.specs.Workings.Peaks.{IsSourceIn};
ghost use Rattle.station_span.specs.Workings.Spans.{AreMoments};

use crate::text::{Answer, text_alone};
use decimal_text::{Bytes, Text};
use highest_water::Peak;
use listing::highest_text;
use peak_text::{PeakCertificate, write_peak};
use station_span::{
    FoundStation, StationData, StationRequest, find_highest, find_level, highest_minute, level_at,
    moved_minute,
};
use std::alloc::{AllocError, Global};
use tide_fault::Refusal;
use zone_time::ZoneClock;

/// Returns the answer of the command `highest`: the highest water, over the span of `request`, of the
/// station that `request` names, in the local time of `zone`.
///
/// # Errors
/// The first [`Refusal`] in this order: the station isn't found, it is a hydraulic current, the span is
/// backward, empty or outside the file's years, the station's constants exceed a limit
/// ([`Refusal::TooLarge`] or [`Refusal::TooSteep`]), the span is longer than 5,270,400 minutes, or the
/// offsets of the station's high and low waters differ ([`Refusal::MarkNotHere`] if the request has a
/// mark, else [`Refusal::LevelNotHere`]).
#[tactic(auto, unfolding(crate::specs::Answers::highest))]
pub fn highest_answer(
    alloc: Global,
    stations: &StationData<'_>,
    request: &StationRequest<'_>,
    zone: &ZoneClock<'_>,
) -> Result<Answer, Refusal>
    ensures { EqualsUnlessNoMemory refusal_is_out_of_memory
        (highest stations.now.book stations.now.table request.now.name request.now.span_request zone.now) result }
{
    let found_station = find_level(alloc, stations, request)?;
    let at = highest_minute(&found_station);
    let text = highest_text_at(alloc, &found_station, request.name(), at, zone)?;
    Ok(text_alone(text))
}

/// Returns the text of the command `highest` for the station called `name`: the name, and the
/// minute and level of its highest water. `at` is the minute at the reference station; the
/// station's minute is `at` plus the minutes of its high-water offset, in the local time of `zone`.
///
/// # Errors
/// [`AllocError`] if memory runs out.
pub fn highest_text_at(
    alloc: Global,
    found_station: &FoundStation,
    name: &Text,
    at: i64,
    zone: &ZoneClock<'_>,
) -> Result<Bytes, AllocError>
    requires peak { HasPeak found_station.now }
    requires inside { IsSourceIn (site_of found_station.now) found_station.now.span_request at }
    ensures { IfOk result (λ text. text ≡ highest_text_at found_station.now.curve.book (site_of found_station.now) name.now at zone.now) }
{
    let minute = moved_minute(found_station, at);
    let level = level_at(found_station, minute);
    highest_text(alloc, name, found_station.units, minute, level, zone.zone())
}

/// Returns the answer of the command `peak`: the certificate of the highest water, over the span of
/// `request`, of the station that `request` names.
///
/// # Errors
/// The first [`Refusal`] in this order: the station isn't found, it is a hydraulic current, the span is
/// backward, empty or outside the file's years, the station's constants exceed a limit
/// ([`Refusal::TooLarge`] or [`Refusal::TooSteep`]), the span is longer than 5,270,400 minutes, or the
/// offsets of the station's high and low waters differ ([`Refusal::MarkNotHere`] if the request has a
/// mark, else [`Refusal::LevelNotHere`]).
#[tactic(auto, unfolding(crate::specs::Answers::peak_certified))]
pub fn certify_peak(
    alloc: Global,
    stations: &StationData<'_>,
    request: &StationRequest<'_>,
) -> Result<Answer, Refusal>
    requires { AreMoments request.now.span_request }
    ensures { EqualsUnlessNoMemory refusal_is_out_of_memory
        (peak_certified stations.now.book stations.now.table request.now.name request.now.span_request) result }
{
    let found_station = find_level(alloc, stations, request)?;
    let peak = find_highest(alloc, &found_station)?;
    let cert = certificate_of(request, peak)?;
    let text = write_peak(alloc, &cert)?;
    Ok(text_alone(text))
}

/// Returns the certificate that answers `request` with the highest water `peak`.
fn certificate_of(request: &StationRequest<'_>, peak: Peak) -> Result<PeakCertificate, AllocError>
    ensures { IfOk result (λ cert. cert ≡ peak_certificate_in request.now.name request.now.span_request peak) }
{
    let span_request = request.span_request();
    Ok(PeakCertificate {
        station: request.name().copy()?,
        begin: span_request.begin,
        end: span_request.end,
        peak,
    })
}
