//! The answer of the command `calendar`: the events of a station, date by date.

ghost use Rattle.decimal_text.specs.Expected.{EqualsUnlessNoMemory};
ghost use Rattle.tide_answer.specs.Answers.{on_calendar};
ghost use Rattle.tide_fault.specs.Faults.{refusal_is_out_of_memory};

use crate::text::Answer;
use calendar_sheet::calendar_text;
use station_span::{StationData, StationRequest, list_station};
use std::alloc::Global;
use tide_fault::Refusal;
use zone_time::ZoneClock;

/// Returns the calendar (the command `calendar`) of the station that `request` names: its events over
/// the span of `request`, by date, in the local time of `zone`.
///
/// # Errors
/// The first [`Refusal`] in this order: the station isn't found, it is a hydraulic current, the span is
/// backward or outside the file's years, the station's constants exceed a limit ([`Refusal::TooLarge`]
/// or [`Refusal::TooSteep`]), the span is longer than 5,270,400 minutes, or the request has a mark but
/// the offsets of the station's high and low waters differ.
#[tactic(auto, unfolding(crate::specs::Answers::on_calendar))]
pub fn list_days(
    alloc: Global,
    stations: &StationData<'_>,
    request: &StationRequest<'_>,
    zone: &ZoneClock<'_>,
) -> Result<Answer, Refusal>
    ensures { EqualsUnlessNoMemory refusal_is_out_of_memory
        (on_calendar stations.now.book stations.now.table request.now.name request.now.span_request zone.now) result }
{
    let listed = list_station(alloc, stations, request)?;
    let span_request = request.span_request();
    let text = calendar_text(
        alloc,
        request.name(),
        listed.units,
        &listed.events,
        zone.zone(),
        span_request.begin,
        span_request.end,
    )?;
    Ok(Answer {
        text,
        rejected: false,
        cells: listed.cells,
    })
}
