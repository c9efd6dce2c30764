//! The answer of the command `about`: the facts about a station.

ghost use Rattle.std.specs.Prelude.{◌≡◌};
ghost use Rattle.decimal_text.specs.Expected.{EqualsUnlessNoMemory};
ghost use Rattle.tide_answer.specs.Answers.{constituent_count, station_about};
ghost use Rattle.tide_fault.specs.Faults.{refusal_is_out_of_memory};

use crate::text::{Answer, text_alone};
use decimal_text::Text;
use harmonics_book::Station;
use listing::about_text;
use slope_agreement::{agreement, predicted_agreements};
use station_span::{StationData, find_reference};
use std::alloc::Global;
use tide_fault::Refusal;

/// Returns the answer of the command `about` for the station called `name`, one of `stations`: the
/// name of its reference station, its unit, the number of its constituents, and a bound on the
/// difference between the slope and the change of the level over a minute, at the reference
/// station. About 1.4257 * 10^35 of the bound's units are one of the station's units a minute.
///
/// # Errors
/// The first [`Refusal`] in this order: the station isn't found, it is a hydraulic current, its
/// constants exceed a limit ([`Refusal::TooLarge`] or [`Refusal::TooSteep`]).
#[tactic(auto, unfolding(crate::specs::Answers::station_about))]
pub fn about_answer(
    alloc: Global,
    stations: &StationData<'_>,
    name: &Text,
) -> Result<Answer, Refusal>
    ensures { EqualsUnlessNoMemory refusal_is_out_of_memory (station_about stations.now.book stations.now.table name.now) result }
{
    let found_station = find_reference(alloc, stations, name)?;
    let station = found_station.station;
    let count = constituent_count(station);
    predicted_agreements();
    let agreement = agreement(&found_station.curve);
    let text = about_text(alloc, name, &station.name, station.units, count, agreement)?;
    Ok(text_alone(text))
}

/// Returns the number of constituents of `station` that have an amplitude.
fn constituent_count(station: &Station) -> u64
    ensures { result ≡ constituent_count station.now }
{
    let amplitudes = station.amplitude.as_slice();
    amplitudes
        .iter()
        .filter(|amplitude| **amplitude != 0)
        .count() as u64
}
