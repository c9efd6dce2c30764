//! The answer of the command `certify`: the certificate of a station's events.

ghost use Rattle.std.specs.Prelude.{◌≡◌, IfOk};
ghost use Rattle.tide_answer.specs.Workings.Certifying.{certificate_in};
ghost use Rattle.tide_answer.specs.Workings.Streaming.{CanCertify, certificate_for};

use crate::text::Answer;
use crate::tracks::find_tracks;
use cert_text::{Certificate, write_certificate};
use curve_law::Tracks;
use decimal_text::Text;
use station_span::{FoundStation, SpanRequest, cell_count};
use std::alloc::{AllocError, Global};

/// Returns the answer with the certificate, by the rules of version 2, of the events of the station
/// `found_station`, called `name`, over the span of its request.
pub fn certificate_answer(
    alloc: Global,
    found_station: &FoundStation,
    name: &Text,
) -> Result<Answer, AllocError>
    requires { CanCertify found_station.now name.now }
    ensures { IfOk result (λ answer. answer ≡ certificate_for found_station.now name.now) }
{
    let tracks = find_tracks(alloc, found_station)?;
    let cells = cell_count(&tracks);
    let cert = certificate_of(name, &found_station.span_request, tracks)?;
    let text = write_certificate(alloc, &cert)?;
    Ok(Answer {
        text,
        rejected: false,
        cells,
    })
}

/// Returns the certificate of version 2 of the station called `name`, with the span and the mark of
/// `span_request`, and with the cells `tracks`.
///
/// # Errors
/// [`AllocError`] if memory runs out.
pub fn certificate_of(
    name: &Text,
    span_request: &SpanRequest,
    tracks: Tracks,
) -> Result<Certificate, AllocError>
    ensures { IfOk result (λ cert. cert ≡ certificate_in name.now span_request.now tracks) }
{
    Ok(Certificate {
        version: 2,
        station: name.copy()?,
        begin: span_request.begin,
        end: span_request.end,
        mark: span_request.mark,
        tracks,
    })
}
