//! The answer of the command `trial`: a trial of the predictor with a file made from a seed.

ghost use Rattle.std.specs.Prelude.{◌≡◌, ◌<◌, ◌≤◌, ◌^◌, [], length, take, IfOk};
ghost use Rattle.decimal_text.specs.Expected.{EqualsUnlessNoMemory};
ghost use Rattle.harmonics_book.specs.Books.{IsBook};
ghost use Rattle.harmonics_text.specs.Reading.{book_of};
ghost use Rattle.tide_fault.specs.Faults.{refusal_is_out_of_memory};
ghost use Rattle.tide_answer.specs.Trials.{book_from, nothing, station_count, station_tally, tally_on, trial_of};
ghost use Rattle.tide_answer.specs.Workings.Tallies.{IsUpTo};
ghost use Rattle.decimal_text.specs.declared.limits.TheConstants.{MOST_BYTES};

use crate::certificate_rejection::find_rejection;
use crate::certify::certificate_of;
use crate::tally::{Tally, tally_text};
use crate::tracks::find_tracks;
use decimal_text::{Bytes, Text};
use harmonics_book::{Book, Station};
use harmonics_text::{BookFault, read_book};
use sample_tides::sample;
use station_span::{Purpose, SpanRequest, StationData, StationRequest, find_events, find_station};
use station_table::OffsetTable;
use std::alloc::Global;
use tide_fault::Refusal;

/// The number of stations that are tried.
const STATIONS: usize = 40;

/// The span of the trial: from 2000-12-01T00:00Z up to 2001-02-01T00:00Z, not included.
const SPAN: SpanRequest = SpanRequest {
    begin: 16_260_480,
    end: 16_349_760,
    mark: None,
};

/// Predicts, certifies and checks at the first forty stations of the made-up file that `seed`
/// determines, and returns the lines of the counts, which the command `trial` prints.
///
/// # Errors
/// [`Refusal::BadSample`] if the made-up file can't be read as a harmonics file; otherwise the first
/// [`Refusal`] at a station. If memory runs out, [`Refusal::NoMemory`] is returned in place of any other
/// result.
#[tactic(auto, unfolding(crate::specs::Trials::trial_of))]
pub fn try_sample(alloc: Global, seed: u64) -> Result<Bytes, Refusal>
    ensures { EqualsUnlessNoMemory refusal_is_out_of_memory (trial_of seed) result }
{
    let text = sample(alloc, seed)?;
    let book = book_in(alloc, text.as_slice())?;
    let table = OffsetTable::new(alloc);
    let stations = StationData::new(&book, &table);
    let sum = tally_stations(alloc, &stations, first_stations(&book))?;
    Ok(tally_text(alloc, seed, sum)?)
}

/// Reads the harmonics file `text`.
fn book_in(alloc: Global, text: &[u8]) -> Result<Book, Refusal>
    requires { length text.now ≤ MOST_BYTES }
    ensures exact { EqualsUnlessNoMemory refusal_is_out_of_memory (book_from (book_of text.now)) result }
    ensures valid { IfOk result IsBook }
{
    match read_book(alloc, text) {
        Ok(book) => Ok(book),
        Err(BookFault::NoMemory) => Err(Refusal::NoMemory),
        Err(BookFault::At { line, why }) => Err(Refusal::BadSample { line, why }),
    }
}

/// Returns the first forty stations of `book`, or all if there are fewer.
fn first_stations(book: &Book) -> &[Station]
    ensures exact { result.now ≡ take station_count book.now.stations }
    ensures count_bound { length result.now ≤ 40 }
{
    let stations = book.stations.as_slice();
    if stations.len() <= STATIONS {
        stations
    } else {
        &stations[..STATIONS]
    }
}

/// Returns the sums of the counts over the stations `tried`. Nothing else is kept from one station to the
/// next.
fn tally_stations(
    alloc: Global,
    stations: &StationData<'_>,
    tried: &[Station],
) -> Result<Tally, Refusal>
    requires table { stations.now.table ≡ [] }
    requires count_bound { length tried.now ≤ 40 }
    ensures exact { EqualsUnlessNoMemory refusal_is_out_of_memory (tally_on stations.now.book nothing tried.now) result }
    ensures count_bound { IfOk result (IsUpTo (2 ^ 100)) }
{
    let mut sum = Tally::nothing();
    for station in tried {
        let one = tally_station(alloc, stations, &station.name)?;
        sum = sum.plus(one);
    }
    Ok(sum)
}

/// Predicts, certifies and checks at the station `name`, and returns the counts.
#[tactic(auto, unfolding(crate::specs::Trials::station_tally))]
fn tally_station(alloc: Global, stations: &StationData<'_>, name: &Text) -> Result<Tally, Refusal>
    requires { stations.now.table ≡ [] }
    ensures exact { EqualsUnlessNoMemory refusal_is_out_of_memory (station_tally stations.now.book name.now) result }
    ensures count_bound { IfOk result (IsUpTo (2 ^ 66)) }
{
    let request = StationRequest::new(name, SPAN);
    let found_station = find_station(alloc, stations, Purpose::Events, &request)?;
    let listed = find_events(alloc, &found_station)?;
    let tracks = find_tracks(alloc, &found_station)?;
    let cert = certificate_of(name, &SPAN, tracks)?;
    let rejection = find_rejection(&found_station, &cert);
    Ok(Tally::of(&found_station.span, &cert.tracks, &listed.events, rejection))
}
