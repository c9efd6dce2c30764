//! A station that was found, with a span.

ghost use Rattle.std.specs.Prelude.{◌≡◌};
ghost use Rattle.station_curve.specs.Curves.{prediction_over};
ghost use Rattle.station_span.specs.Sites.{reached};
ghost use Rattle.station_span.specs.Workings.Spans.{IsFound, site_with};

use crate::purpose::Purpose;
use crate::span_request::SpanRequest;
use event_list::Span;
use harmonics_book::Units;
use station_curve::StationCurve;
use station_table::Basis;

/// A station that was found by its name, with a request about it that can be answered: its span,
/// mark and purpose. The curve of its reference station covers the minutes of the field `span` and
/// the minute at its end, and no others.
#[derive(Drop)]
pub struct FoundStation {
    /// The station's reference in the book, and its offsets from it.
    pub basis: Basis,
    /// The unit of the reference station's levels, which is also the unit of the station's.
    pub units: Units,
    /// The curve of the reference station's level and slope, for the minutes of `span` and the minute at
    /// its end.
    pub curve: StationCurve,
    /// The purpose of the request: it determines which minutes of the reference station `span` has.
    pub purpose: Purpose,
    /// The span and the mark of the request, in minutes and levels of the station itself, before its
    /// offsets are removed.
    pub span_request: SpanRequest,
    /// The minutes at which the reference station's curve is evaluated; the minute at its end is
    /// included.
    pub span: Span,
    pub ghost unit: { units ≡ curve.station.units },
    pub ghost valid: { IsFound purpose curve.book span_request (site_with basis curve.station) },
    pub ghost looked: { span ≡ reached purpose basis span_request.begin span_request.end },
    pub ghost alone: { curve ≡ prediction_over curve.book curve.station span.begin span.end },
}
