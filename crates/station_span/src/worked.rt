//! Spans worked out by hand.

ghost use Rattle.std.specs.Prelude.{◌≡◌, pos, Ok, Err};
ghost use Rattle.tide_fault.specs.declared.refusal.Refusal.{Refusal};
ghost use Rattle.station_span.specs.declared.purpose.Purpose.{Purpose};
ghost use Rattle.station_span.specs.Sites.{span_in, length_in};
ghost use Rattle.station_table.specs.Bases.{reference_basis};
ghost use Rattle.station_curve.specs.Worked.{pier_book};

/// Proves examples of spans of a reference station, for a harmonics file of the years 1999 to 2001,
/// that is from 00:00 UTC on 1 January 1999 (15252480) up to but not including 1 January 2002
/// (16830720). The whole file is accepted. Refused are spans that end or begin one minute outside
/// these years, are backward, are longer than 5,270,400 minutes (3,660 days), or are empty in a
/// request for the highest water.
#[tactic(auto, unfolding(crate::specs::Sites::span_in, crate::specs::Sites::lacks_minute, crate::specs::Sites::length_in, year_blend::specs::Years::year_start_of, jiff_core::specs::Calendar::days_from_civil, jiff_core::specs::Calendar::day_count, jiff_core::specs::Calendar::days_of_years, jiff_core::specs::Calendar::days_of_months))]
pub fn worked_spans()
    ensures whole { span_in Purpose.Events pier_book (reference_basis 0) (pos 15252480) (pos 16830720) ≡ Ok tt }
    ensures late { span_in Purpose.Events pier_book (reference_basis 0) (pos 15252480) (pos 16830721)
        ≡ Err (Refusal.OutOfYears (pos 15252480) (pos 16830720)) }
    ensures early { span_in Purpose.Events pier_book (reference_basis 0) (pos 15252479) (pos 15252480)
        ≡ Err (Refusal.OutOfYears (pos 15252480) (pos 16830720)) }
    ensures backward { span_in Purpose.Events pier_book (reference_basis 0) (pos 15252481) (pos 15252480) ≡ Err Refusal.BackwardSpan }
    ensures empty { span_in Purpose.Events pier_book (reference_basis 0) (pos 15252480) (pos 15252480) ≡ Ok tt }
    ensures no_minute { span_in Purpose.Highest pier_book (reference_basis 0) (pos 15252480) (pos 15252480) ≡ Err Refusal.EmptySpan }
    ensures longest { length_in (pos 0) (pos 5270400) ≡ Ok tt }
    ensures too_long { length_in (pos 0) (pos 5270401) ≡ Err (Refusal.SpanTooLong (pos 5270401)) }
{}
