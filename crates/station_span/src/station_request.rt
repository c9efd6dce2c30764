//! A request about a station, over a span.

ghost use Rattle.std.specs.Prelude.{◌≡◌};
ghost use Rattle.station_span.specs.Workings.Spans.{IsInRange};

use crate::span_request::SpanRequest;
use decimal_text::Text;
use std::marker::Model;

/// A request about the station with a given name: a span and an optional mark. The name is
/// borrowed. The span's minutes are at most 20,000,000,000 in absolute value, and the mark at most
/// 10,000,000,000 millionths. In contracts its value is the name, the span and the mark.
#[derive(Drop)]
pub struct StationRequest<'a> {
    name: &'a Text,
    span_request: SpanRequest,
}

impl<'a> Model for StationRequest<'a> {
    ghost use Rattle.station_span.specs.Sites.{NamedSpan};
    ghost use Rattle.station_span.specs.Workings.Spans.{IsInRange};

    ghost Value = { NamedSpan };

    ghost view = { λ r. record { name = r.name.now; span_request = r.span_request } };

    ghost invariant = { λ r. IsInRange r.span_request };
}

impl<'a> StationRequest<'a> {
    /// Returns the request about the station called `name`, over the span and with the mark of
    /// `span_request`. The minutes of the span are at most 20,000,000,000 in size, and the mark, if any,
    /// is at most 10,000,000,000 millionths in size.
    pub fn new(name: &'a Text, span_request: SpanRequest) -> StationRequest<'a>
        requires { IsInRange span_request }
        ensures { result ≡ record { name = name.now; span_request = span_request } }
    {
        StationRequest { name, span_request }
    }

    /// Borrows the name of the station that the request is about.
    pub fn name(&self) -> &'a Text
        ensures { result.now ≡ self.now.name }
    {
        self.name
    }

    /// Borrows the span and the mark of the request.
    pub fn span_request(&self) -> &SpanRequest
        ensures exact { result.now ≡ self.now.span_request }
        ensures in_range { IsInRange self.now.span_request }
    {
        &self.span_request
    }
}
