//! The answer to a request.

ghost use Rattle.std.specs.Prelude.{◌≡◌, false, IfErr, IfOk};
ghost use Rattle.decimal_text.specs.Expected.{EqualsUnlessNoMemory};
ghost use Rattle.harmonics_book.specs.Books.{IsBook};
ghost use Rattle.listing.specs.StationLists.{stations_text_of};
ghost use Rattle.question.specs.Asked.{AreInRange};
ghost use Rattle.tide_answer.specs.Answers.{answered, asks_span, text_alone, text_over};
ghost use Rattle.tide_fault.specs.Faults.{refusal_is_out_of_memory};
ghost use Rattle.tide_answer.specs.Givens.{IsGiven, given_seen};
ghost use Rattle.tide_answer.specs.Streams.{can_stream};

use crate::about::about_answer;
use crate::alone::answer_alone;
use crate::calendar::list_days;
use crate::check::check;
use crate::clock::clock_answer;
use crate::events_answer::find_answer;
use crate::heights::list_heights;
use crate::highest::{certify_peak, highest_answer};
use crate::inputs::{Given, GivenView};
use crate::peak_check::check_peak_text;
use crate::requests::{refusal_of_incomplete, station_named, station_request};
use crate::text::{Answer, text_alone};
use harmonics_book::Book;
use listing::stations_text;
use question::{Command, Question, ValidQuestion};
use station_span::StationData;
use station_table::OffsetTable;
use std::alloc::Global;
use tide_fault::Refusal;
use zone_time::ZoneClock;

/// Returns the answer to `question` with the harmonic constants `book` and the table of offsets `table`;
/// `inputs` has the zone, the certificate and the present minute. The commands `report` and `serve` have
/// no answer here: they are refused with [`Refusal::NoStation`]. For a report,
/// [`station_events`](crate::station_events) returns the events.
///
/// # Errors
/// The first [`Refusal`] in this order, as far as the command has the step: a text that isn't a
/// certificate, the station isn't found, it is a hydraulic current, the span is backward, empty for a
/// highest water, or outside the file's years, the station's constants exceed a limit
/// ([`Refusal::TooLarge`] or [`Refusal::TooSteep`]), the span is longer than 5,270,400 minutes, the
/// request has a mark or needs a level at each minute but the offsets of the station's high and low
/// waters differ, there are more than 100,000 rows. If memory runs out, [`Refusal::NoMemory`] is
/// returned in place of any other result.
///
/// # Examples
/// ```
/// let inputs = Given {
///     zone: Zone::Utc,
///     certificate: Bytes::from_vec(Vec::new(alloc)),
///     now: 0,
/// };
/// let answered = answer(alloc, &book, &table, &question, &inputs)?;
/// assert_eq!(rt; answered.text.as_slice(), DAY.as_bytes());
/// ```
///
/// ```
/// let question = request(alloc, "check|file=f|certificate=c")?;
/// let inputs = Given {
///     zone: Zone::Utc,
///     certificate: Bytes::from_vec(CERTIFICATE.as_bytes().to_vec(alloc)?),
///     now: 0,
/// };
/// let checked = answer(alloc, &book, &table, &question, &inputs)?;
/// assert!(rt; !checked.rejected);
/// ```
pub fn answer(
    alloc: Global,
    book: &Book,
    table: &OffsetTable,
    question: &Question,
    inputs: &Given,
) -> Result<Answer, Refusal>
    requires book { IsBook book.now }
    requires ranges { AreInRange question.now }
    requires inputs { IsGiven inputs.now }
    ensures { EqualsUnlessNoMemory refusal_is_out_of_memory (answered book.now table.now question.now inputs.entry.now) result }
{
    let stations = StationData::new(book, table);
    let question = ValidQuestion::new(question);
    answer_valid(alloc, &stations, &question, inputs.view())
}

/// Returns the answer to the valid `question` about `stations`, with the borrowed zone, certificate and
/// present minute of `inputs`. The result is the same as the result of [`answer`].
///
/// # Errors
/// The same [`Refusal`] as in [`answer`], in the order that `specs/Answers.antt` defines. If memory runs
/// out, [`Refusal::NoMemory`] is returned in place of any other result.
#[tactic(auto, unfolding(crate::specs::Answers::answered, crate::specs::Answers::asks_name))]
pub fn answer_valid(
    alloc: Global,
    stations: &StationData<'_>,
    question: &ValidQuestion<'_>,
    inputs: GivenView<'_>,
) -> Result<Answer, Refusal>
    requires inputs { IsGiven (given_seen inputs) }
    ensures { EqualsUnlessNoMemory refusal_is_out_of_memory
        (answered stations.now.book stations.now.table question.now (given_seen inputs.entry)) result }
{
    let name = station_named(question);
    let zone = &inputs.zone.clock();
    match question.get().command {
        Command::Predict | Command::Certify => {
            Ok(find_answer(alloc, stations, question, inputs)?.answer(alloc)?)
        }
        Command::Heights | Command::Calendar | Command::Highest | Command::Peak => answer_over_span(
            alloc, stations, question, zone,
        ),
        Command::Clock => clock_answer(alloc, stations, name?, inputs.now, zone),
        Command::About => about_answer(alloc, stations, name?),
        Command::Check => check(alloc, stations, inputs.certificate, zone),
        Command::PeakCheck => check_peak_text(alloc, stations, inputs.certificate),
        Command::Stations => answer_stations(alloc, stations),
        Command::Sample | Command::Trial => answer_alone(alloc, question),
        Command::Report | Command::Serve => Err(refusal_of_incomplete()),
    }
}

/// Returns the answer to `question`; its command needs a station and a span, and isn't `predict` or
/// `certify`.
#[tactic(auto, unfolding(crate::specs::Answers::asks_span))]
fn answer_over_span(
    alloc: Global,
    stations: &StationData<'_>,
    question: &ValidQuestion<'_>,
    zone: &ZoneClock<'_>,
) -> Result<Answer, Refusal>
    requires { can_stream question.now.command ≡ false }
    ensures { EqualsUnlessNoMemory refusal_is_out_of_memory (asks_span question.now
        (text_over question.now.command stations.now.book stations.now.table question.now zone.now)) result }
{
    let request = &station_request(question)?;
    let Question { layout, step, .. } = question.get();
    match question.get().command {
        Command::Heights => list_heights(alloc, stations, request, *step, *layout, zone),
        Command::Calendar => list_days(alloc, stations, request, zone),
        Command::Highest => highest_answer(alloc, stations, request, zone),
        Command::Peak => certify_peak(alloc, stations, request),
        _ => Err(refusal_of_incomplete()),
    }
}

/// Returns the answer to the command `stations`.
fn answer_stations(alloc: Global, stations: &StationData<'_>) -> Result<Answer, Refusal>
    ensures exact { IfOk result (λ answer. answer ≡ text_alone (stations_text_of stations.now.book stations.now.table)) }
    ensures memory { IfErr result (λ refusal. refusal ≡ Refusal.NoMemory) }
{
    Ok(text_alone(stations_text(alloc, stations.book().get(), stations.table())?))
}
