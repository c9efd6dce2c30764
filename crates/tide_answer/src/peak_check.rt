//! The answer of the command `peakcheck`: the check of a certificate of a highest water.

ghost use Rattle.std.specs.Prelude.{◌≡◌, ◌<◌, ◌≤◌, ◌^◌, length, IfOk};
ghost use Rattle.decimal_text.specs.Expected.{EqualsUnlessNoMemory};
ghost use Rattle.decimal_text.specs.declared.limits.TheConstants.{MOST_BYTES};
ghost use Rattle.peak_text.specs.PeakReadings.{peak_of};
ghost use Rattle.peak_text.specs.PeakTexts.{IsPeakCertificate};
ghost use Rattle.highest_water.specs.declared.verdict.PeakVerdict.{PeakVerdict};
ghost use Rattle.tide_answer.specs.Answers.{peak_checked, peak_from, peak_judged};
ghost use Rattle.tide_answer.specs.Workings.Peaks.{peak_judged_in};
ghost use Rattle.tide_fault.specs.Faults.{refusal_is_out_of_memory};
ghost use Rattle.station_span.specs.Workings.Finds.{HasPeak, site_of};
ghost use Rattle.station_span.specs.Workings.Peaks.{IsSourceIn};

use crate::highest::highest_text_at;
use crate::requests::request_of_peak_certificate;
use crate::text::{Answer, accepted_line, rejected, text_alone};
use decimal_text::Bytes;
use highest_water::PeakVerdict;
use peak_text::{
    PeakCertificate, PeakFault, peak_certificates_have_one_text, read_peak, verdict_line,
};
use station_span::{FoundStation, StationData, find_level, judge_highest};
use std::alloc::{AllocError, Global};
use tide_fault::Refusal;
use zone_time::Zone;

/// Returns the answer of the command `peakcheck` for the certificate of a highest water with the text
/// `bytes`. If the certificate is valid, the answer is `Accepted` and the highest water of the
/// certificate's span in universal time; otherwise it is one line that reports the first fault.
///
/// # Errors
/// [`Refusal::NotACertificate`] if `bytes` isn't the text of such a certificate; otherwise, for the
/// station and the span of the certificate, the first [`Refusal`] in this order: the station isn't
/// found, it is a hydraulic current, the span is backward, empty or outside the file's years, the
/// station's constants exceed a limit ([`Refusal::TooLarge`] or [`Refusal::TooSteep`]), the span is
/// longer than 5,270,400 minutes, or the offsets of the station's high and low waters differ.
#[tactic(auto, unfolding(crate::specs::Answers::peak_checked))]
pub fn check_peak_text(
    alloc: Global,
    stations: &StationData<'_>,
    bytes: &[u8],
) -> Result<Answer, Refusal>
    requires count_bound { length bytes.now ≤ MOST_BYTES }
    ensures { EqualsUnlessNoMemory refusal_is_out_of_memory (peak_checked stations.now.book stations.now.table bytes.now) result }
{
    let cert = peak_in(alloc, bytes)?;
    judge_peak(alloc, stations, &cert)
}

/// Returns the certificate with the text `bytes`.
fn peak_in(alloc: Global, bytes: &[u8]) -> Result<PeakCertificate, Refusal>
    requires { length bytes.now ≤ MOST_BYTES }
    ensures exact { EqualsUnlessNoMemory refusal_is_out_of_memory (peak_from (peak_of bytes.now)) result }
    ensures valid { IfOk result IsPeakCertificate }
    ensures count_bound { IfOk result (λ cert. length cert.peak.cells < 2 ^ 32) }
{
    peak_certificates_have_one_text();
    match read_peak(alloc, bytes) {
        Ok(cert) => Ok(cert),
        Err(PeakFault::NoMemory) => Err(Refusal::NoMemory),
        Err(PeakFault::NotACertificate { line }) => Err(Refusal::NotACertificate { line }),
    }
}

/// Returns the result of checking the certificate `cert`.
#[tactic(auto, unfolding(crate::specs::Workings::Peaks::peak_judged_in))]
fn judge_peak(
    alloc: Global,
    stations: &StationData<'_>,
    cert: &PeakCertificate,
) -> Result<Answer, Refusal>
    requires cert { IsPeakCertificate cert.now }
    requires count_bound { length cert.now.peak.cells < 2 ^ 32 }
    ensures { EqualsUnlessNoMemory refusal_is_out_of_memory (peak_judged_in stations.now.book stations.now.table cert.now) result }
{
    let found_station = find_level(alloc, stations, &request_of_peak_certificate(cert))?;
    match judge_highest(&found_station, &cert.peak) {
        PeakVerdict::Accepted => Ok(accept_peak(alloc, &found_station, cert)?),
        verdict => Ok(rejected(verdict_line(alloc, verdict)?)),
    }
}

/// Returns the answer that accepts `cert`.
fn accept_peak(
    alloc: Global,
    found_station: &FoundStation,
    cert: &PeakCertificate,
) -> Result<Answer, AllocError>
    requires peak { HasPeak found_station.now }
    requires inside { IsSourceIn (site_of found_station.now) found_station.now.span_request cert.now.peak.at }
    ensures { IfOk result (λ answer. answer ≡ peak_judged found_station.now.curve.book (site_of found_station.now) cert.now PeakVerdict.Accepted) }
{
    let zone = Zone::Utc;
    let shown = highest_text_at(
        alloc,
        found_station,
        &cert.station,
        cert.peak.at,
        &zone.clock(),
    )?;
    let mut text = accepted_line(alloc)?;
    text.extend_from_slice(shown.as_slice())?;
    Ok(text_alone(Bytes::from_vec(text)))
}
