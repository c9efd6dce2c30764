//! The request about a station that a question or a certificate makes.

ghost use Rattle.std.specs.Prelude.{◌≡◌, Ok, Err, IfErr, IfOk};
ghost use Rattle.cert_text.specs.Certificates.{IsCertificate};
ghost use Rattle.peak_text.specs.PeakTexts.{IsPeakCertificate};
ghost use Rattle.tide_answer.specs.Answers.{named_by, refusal_of_incomplete};
ghost use Rattle.tide_answer.specs.Asking.{request_by_question, request_by_certificate, request_by_peak_certificate};
ghost use Rattle.tide_answer.specs.Workings.Requests.{named_span};
ghost use Rattle.station_span.specs.Workings.Spans.{AreMoments, IsInRange};

use cert_text::Certificate;
use decimal_text::Text;
use peak_text::PeakCertificate;
use question::ValidQuestion;
use station_span::{SpanRequest, StationRequest};
use tide_fault::Refusal;

/// Returns [`Refusal::NoStation`], by which this crate also refuses a question that lacks the span or
/// the seed that its command needs, or whose command another crate answers.
pub fn refusal_of_incomplete() -> Refusal
    ensures { result ≡ refusal_of_incomplete }
{
    Refusal::NoStation
}

/// Returns the request of `question`: the station's name, the span and the mark.
///
/// # Errors
/// [`refusal_of_incomplete`] if `question` has no station or no span. A question that was read from text
/// has both if its command needs them.
#[tactic(auto, unfolding(crate::specs::Workings::Requests::named_span))]
pub fn station_request<'a>(question: &ValidQuestion<'a>) -> Result<StationRequest<'a>, Refusal>
    ensures exact { result ≡ named_span question.now }
    ensures name { IfOk result (λ request. named_by question.now.station ≡ Ok request.name) }
    ensures span { IfOk result (λ request. named_by (request_by_question question.now) ≡ Ok request.span_request) }
    ensures moments { IfOk result (λ request. AreMoments request.span_request) }
{
    let name = station_named(question)?;
    let span_request = span_named(question)?;
    Ok(StationRequest::new(name, span_request))
}

/// Returns the name of the station of `question`.
///
/// # Errors
/// [`refusal_of_incomplete`] if `question` has no station. A question that was read from text has one if
/// its command needs it.
pub fn station_named<'a>(question: &ValidQuestion<'a>) -> Result<&'a Text, Refusal>
    ensures found { IfOk result (λ name. named_by question.now.station ≡ Ok name.now) }
    ensures missing { IfErr result (λ refusal. named_by question.now.station ≡ Err refusal) }
{
    match &question.get().station {
        Some(name) => Ok(name),
        None => Err(refusal_of_incomplete()),
    }
}

/// Returns the span and the mark of `question`.
#[tactic(auto, unfolding(crate::specs::Asking::request_by_question))]
fn span_named(question: &ValidQuestion<'_>) -> Result<SpanRequest, Refusal>
    ensures exact { result ≡ named_by (request_by_question question.now) }
    ensures in_range { IfOk result IsInRange }
    ensures moments { IfOk result AreMoments }
{
    let question = question.get();
    match (question.begin, question.end) {
        (Some(begin), Some(end)) => Ok(SpanRequest {
            begin,
            end,
            mark: question.mark,
        }),
        _ => Err(refusal_of_incomplete()),
    }
}

/// Returns the request for the events that the certificate `cert` is about: its station's name, its span
/// and its mark.
pub fn request_of_certificate<'a>(cert: &'a Certificate) -> StationRequest<'a>
    requires { IsCertificate cert.now }
    ensures { result ≡ record { name = cert.now.station; span_request = request_by_certificate cert.now } }
{
    let span_request = SpanRequest {
        begin: cert.begin,
        end: cert.end,
        mark: cert.mark,
    };
    StationRequest::new(&cert.station, span_request)
}

/// Returns the request for the highest water that the certificate `cert` is about: its station's name
/// and its span, without a mark.
pub fn request_of_peak_certificate<'a>(cert: &'a PeakCertificate) -> StationRequest<'a>
    requires { IsPeakCertificate cert.now }
    ensures { result ≡ record { name = cert.now.station; span_request = request_by_peak_certificate cert.now } }
{
    let span_request = SpanRequest {
        begin: cert.begin,
        end: cert.end,
        mark: None,
    };
    StationRequest::new(&cert.station, span_request)
}
