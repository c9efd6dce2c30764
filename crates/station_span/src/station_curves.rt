//! The curve of a station, for the minutes of a span or for all.

ghost use Rattle.std.specs.Prelude.{◌≡◌, ◌≤ℤ◌, IfOk, Some, slice_get};
ghost use Rattle.decimal_text.specs.Expected.{EqualsUnlessNoMemory};
ghost use Rattle.station_curve.specs.Curves.{curve_of, curve_over, prediction_of, prediction_over, IsPrediction};
ghost use Rattle.station_span.specs.Sites.{curve_from};
ghost use Rattle.tide_fault.specs.Faults.{refusal_is_out_of_memory};
ghost use Rattle.year_blend.specs.Places.{InDomain};

use event_list::Span;
use harmonics_book::{Station, ValidBook};
use station_curve::StationCurve;
use std::alloc::Global;
use tide_fault::Refusal;

/// Returns the level and slope curve of `station`, which has index `index` in the list of `book`,
/// for the minutes of `span` and the minute at its end.
///
/// # Errors [`Refusal::Hydraulic`] for a hydraulic current; [`Refusal::TooLarge`] or
/// [`Refusal::TooSteep`] if the station's constants exceed a limit in some year of the book;
/// [`Refusal::NoMemory`] if memory runs out.
pub fn curve_over(
    alloc: Global,
    book: &ValidBook<'_>,
    index: u32,
    station: &Station,
    span: &Span,
) -> Result<StationCurve, Refusal>
    requires index { slice_get book.now.stations index ≡ Some station.now }
    requires begins { InDomain book.now.first_year book.now.years span.now.begin }
    requires ends { InDomain book.now.first_year book.now.years span.now.end }
    requires forward { span.now.begin ≤ℤ span.now.end }
    ensures exact { EqualsUnlessNoMemory refusal_is_out_of_memory
        (curve_from (curve_over book.now station.now span.now.begin span.now.end)) result }
    ensures predicts { IfOk result (λ curve. curve ≡ prediction_over book.now station.now span.now.begin span.now.end) }
    ensures valid { IfOk result IsPrediction }
{
    match StationCurve::over(alloc, book.get(), index, span.begin, span.end) {
        Ok(curve) => {
            curve.limits_hold();
            Ok(curve)
        }
        Err(fault) => Err(Refusal::from(fault)),
    }
}

/// Returns the level and slope curve of `station`, which has index `index` in the list of `book`, for
/// all minutes of the book's years and the first minute after them.
///
/// # Errors
/// [`Refusal::Hydraulic`] for a hydraulic current; [`Refusal::TooLarge`] or [`Refusal::TooSteep`] if the
/// station's constants exceed a limit in some year; [`Refusal::NoMemory`] if memory runs out.
pub fn whole_curve(
    alloc: Global,
    book: &ValidBook<'_>,
    index: u32,
    station: &Station,
) -> Result<StationCurve, Refusal>
    requires index { slice_get book.now.stations index ≡ Some station.now }
    ensures exact { EqualsUnlessNoMemory refusal_is_out_of_memory (curve_from (curve_of book.now station.now)) result }
    ensures predicts { IfOk result (λ curve. curve ≡ prediction_of book.now station.now) }
    ensures valid { IfOk result IsPrediction }
{
    match StationCurve::new(alloc, book.get(), index) {
        Ok(curve) => {
            curve.limits_hold();
            Ok(curve)
        }
        Err(fault) => Err(Refusal::from(fault)),
    }
}
