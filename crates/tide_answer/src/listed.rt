//! The events of a station, for a report.

ghost use Rattle.std.specs.Prelude.{◌≢◌, ◌≤◌, All, IfOk};
ghost use Rattle.decimal_text.specs.Expected.{EqualsUnlessNoMemory};
ghost use Rattle.event_text.specs.Lines.{IsListed};
ghost use Rattle.harmonics_book.specs.declared.book.Units.{Units};
ghost use Rattle.harmonics_book.specs.Books.{IsBook};
ghost use Rattle.question.specs.Asked.{AreInRange};
ghost use Rattle.tide_answer.specs.Answers.{listed};
ghost use Rattle.tide_answer.specs.Givens.{IsGiven};
ghost use Rattle.tide_fault.specs.Faults.{refusal_is_out_of_memory};

use crate::inputs::Given;
use crate::requests::station_request;
use curve_law::Events;
use decimal_text::Text;
use harmonics_book::{Book, Units};
use question::{Question, ValidQuestion};
use station_span::{StationData, list_station};
use station_table::OffsetTable;
use std::alloc::Global;
use tide_fault::Refusal;

/// The events of a station over a span, with the station's name and unit, for a report.
#[derive(Drop)]
pub struct Listed {
    /// The station's name, as the request gives it.
    pub name: Text,
    /// The unit of the events' levels, which are in millionths of it.
    pub units: Units,
    pub events: Events,
}

/// Returns the events, for a report, of the station, span and mark of `question`. Each event has a
/// [`word`](event_text::word) in the station's unit, a level in millionths of this unit, and a minute
/// for which every zone has a local time. The name has no control characters.
///
/// # Errors
/// The first [`Refusal`] in this order: the station isn't found, it is a hydraulic current, the span is
/// backward or outside the file's years, the station's constants exceed a limit ([`Refusal::TooLarge`]
/// or [`Refusal::TooSteep`]), the span is longer than 5,270,400 minutes, or the request has a mark but
/// the offsets of the station's high and low waters differ. If memory runs out, [`Refusal::NoMemory`] is
/// returned in place of any other result.
///
/// # Examples
/// ```
/// let listed = station_events(alloc, &book, &table, &question, &inputs)?;
/// let (name, units, events) = (&listed.name, listed.units, &listed.events);
/// let lines = plain_events(alloc, name, units, events, &Zone::Utc)?;
/// ```
pub fn station_events(
    alloc: Global,
    book: &Book,
    table: &OffsetTable,
    question: &Question,
    inputs: &Given,
) -> Result<Listed, Refusal>
    requires book { IsBook book.now }
    requires ranges { AreInRange question.now }
    requires inputs { IsGiven inputs.now }
    ensures exact { EqualsUnlessNoMemory refusal_is_out_of_memory (listed book.now table.now question.now) result }
    ensures lines { IfOk result (λ found_station. All (IsListed found_station.units) found_station.events) }
    ensures levels { IfOk result (λ found_station. found_station.units ≢ Units.KnotsSquared) }
    ensures printed { IfOk result (λ found_station. All (λ b. (32 ≤ b) × (b ≢ 127)) found_station.name) }
{
    let stations = StationData::new(book, table);
    let question = ValidQuestion::new(question);
    list_question(alloc, &stations, &question)
}

/// Returns the events, for a report, of the station, span and mark of the valid `question` about
/// `stations`. The result is the same as the result of [`station_events`].
///
/// # Errors
/// The same [`Refusal`] as in [`station_events`], in the order that `specs/Answers.antt` defines. If
/// memory runs out, [`Refusal::NoMemory`] is returned in place of any other result.
#[tactic(auto, unfolding(crate::specs::Answers::listed))]
pub fn list_question(
    alloc: Global,
    stations: &StationData<'_>,
    question: &ValidQuestion<'_>,
) -> Result<Listed, Refusal>
    ensures exact { EqualsUnlessNoMemory refusal_is_out_of_memory (listed stations.now.book stations.now.table question.now) result }
    ensures lines { IfOk result (λ found_station. All (IsListed found_station.units) found_station.events) }
    ensures levels { IfOk result (λ found_station. found_station.units ≢ Units.KnotsSquared) }
    ensures printed { IfOk result (λ found_station. All (λ b. (32 ≤ b) × (b ≢ 127)) found_station.name) }
{
    let request = station_request(question)?;
    let found_station = list_station(alloc, stations, &request)?;
    Ok(Listed {
        name: request.name().copy()?,
        units: found_station.units,
        events: found_station.events,
    })
}
