//! The answers of the commands `predict` and `certify`: a station's events, or their certificate.

ghost use Rattle.std.specs.Prelude.{◌≡◌, if◌then◌else◌, Some, None, IfOk, IsTrue};
ghost use Rattle.decimal_text.specs.Expected.{EqualsUnlessNoMemory};
ghost use Rattle.tide_fault.specs.Faults.{refusal_is_out_of_memory};
ghost use Rattle.tide_answer.specs.Answers.{answered};
ghost use Rattle.tide_answer.specs.FoundAnswers.{answer_by, ready_by};
ghost use Rattle.tide_answer.specs.Givens.{IsGiven, given_seen};
ghost use Rattle.tide_answer.specs.Streams.{can_stream, prepared, streams_by};
ghost use Rattle.tide_answer.specs.Workings.Streaming.{form_of};

use crate::certify::certificate_answer;
use crate::form::Form;
use crate::inputs::GivenView;
use crate::predict::listing_answer;
use crate::requests::station_request;
use crate::streaming::Stream;
use crate::text::Answer;
use decimal_text::Text;
use question::{Command, Layout, ValidQuestion};
use station_span::{FoundStation, Purpose, StationData, find_station};
use station_table::Basis;
use std::alloc::{AllocError, Global};
use std::marker::Model;
use tide_fault::Refusal;
use zone_time::Zone;

/// The answer with the events of a station that was found, before its text is made. It owns the curve of
/// its station; the name and the zone are borrowed. In contracts its value is the whole answer, and
/// whether it is streamed.
#[derive(Drop)]
pub struct EventsAnswer<'a> {
    form: Form,
    found_station: FoundStation,
    name: &'a Text,
    layout: Layout,
    zone: &'a Zone,
}

impl<'a> Model for EventsAnswer<'a> {
    ghost use Rattle.tide_answer.specs.FoundAnswers.{FoundAnswer};
    ghost use Rattle.tide_answer.specs.Workings.Found.{found_answer, HasEvents};

    ghost Value = { FoundAnswer };

    ghost view = { λ a. found_answer a.form a.found_station a.name.now a.layout a.zone.now };

    ghost invariant = { λ a. HasEvents a.found_station a.name.now a.zone.now };
}

/// An answer with a station's events, by when its text is made.
#[derive(Drop)]
pub enum Source<'a> {
    /// An answer that is streamed, that is, computed while it is written.
    Stream(Stream),
    /// An answer whose text is made before it is written.
    Whole(EventsAnswer<'a>),
}

impl<'a> EventsAnswer<'a> {
    ghost use Rattle.tide_answer.specs.Sources.{found_in};
    ghost use Rattle.tide_answer.specs.Workings.Found.{found_answer, HasEvents};

    /// Returns the answer for the station `found_station` called `name`: a listing of its events in
    /// `layout` and in the local time of `zone`, or their certificate, as `form` says.
    fn new(
        form: Form,
        found_station: FoundStation,
        name: &'a Text,
        layout: Layout,
        zone: &'a Zone,
    ) -> EventsAnswer<'a>
        requires { HasEvents found_station name.now zone.now }
        ensures { result ≡ found_answer form found_station name.now layout zone.now }
    {
        EventsAnswer {
            form,
            found_station,
            name,
            layout,
            zone,
        }
    }

    /// Returns the answer with its text.
    ///
    /// # Errors
    /// [`AllocError`] if memory runs out.
    pub fn answer(&self, alloc: Global) -> Result<Answer, AllocError>
        ensures { IfOk result (λ answer. answer ≡ self.now.answer) }
    {
        let zone = self.zone.clock();
        match self.form {
            Form::Listing => listing_answer(
                alloc,
                &self.found_station,
                self.name,
                self.layout,
                &zone,
            ),
            Form::Certificate => certificate_answer(alloc, &self.found_station, self.name),
        }
    }

    /// Returns the streamed answer if the station has no offsets, the layout is `plain`, and the zone
    /// isn't read from a zone file; otherwise the same answer.
    ///
    /// # Errors
    /// [`AllocError`] if memory runs out.
    pub fn source(self) -> Result<Source<'a>, AllocError>
        ensures { IfOk result (λ source. found_in source ≡ self.entry) }
    {
        match streamed_zone(&self.found_station.basis, self.layout, self.zone) {
            Some(zone) => {
                let name = self.name.copy()?;
                let stream = Stream::new(self.form, self.found_station, name, zone);
                Ok(Source::Stream(stream))
            }
            None => Ok(Source::Whole(self)),
        }
    }
}

/// Finds the station of the valid `question`, a `predict` or `certify` request about `stations`, and
/// returns its answer before the text is made, with the borrowed zone of `inputs`. A certificate is by
/// the rules of version 2.
///
/// # Errors
/// The first [`Refusal`] in this order: the station isn't found, it is a hydraulic current, the span is
/// backward or outside the file's years, the station's constants exceed a limit ([`Refusal::TooLarge`]
/// or [`Refusal::TooSteep`]), the span is longer than 5,270,400 minutes, or the request has a mark but
/// the offsets of the station's high and low waters differ. If memory runs out, [`Refusal::NoMemory`] is
/// returned in place of any other result.
#[tactic(auto, unfolding(crate::specs::Streams::prepared))]
pub fn find_answer<'a>(
    alloc: Global,
    stations: &StationData<'_>,
    question: &ValidQuestion<'a>,
    inputs: GivenView<'a>,
) -> Result<EventsAnswer<'a>, Refusal>
    requires inputs { IsGiven (given_seen inputs) }
    requires command { IsTrue (can_stream question.now.command) }
    ensures answer { EqualsUnlessNoMemory refusal_is_out_of_memory
        (answered stations.now.book stations.now.table question.now (given_seen inputs.entry)) (answer_by result) }
    ensures ready { EqualsUnlessNoMemory refusal_is_out_of_memory
        (prepared stations.now.book stations.now.table question.now (given_seen inputs.entry)) (ready_by result) }
{
    let request = station_request(question)?;
    let found_station = find_station(alloc, stations, Purpose::Events, &request)?;
    let question = question.get();
    let form = form_of(question.command);
    let answer = EventsAnswer::new(
        form,
        found_station,
        request.name(),
        question.layout,
        inputs.zone,
    );
    Ok(answer)
}

/// Returns the form of the answers of `command`; they can be streamed.
fn form_of(command: Command) -> Form
    ensures { result ≡ form_of command }
{
    match command {
        Command::Certify => Form::Certificate,
        _ => Form::Listing,
    }
}

/// Returns `zone` if the answer is streamed (the station has no offsets, the layout is `plain`, and the
/// zone isn't a zone file's), and otherwise `None`.
fn streamed_zone(basis: &Basis, layout: Layout, zone: &Zone) -> Option<Zone>
    ensures { result ≡ (if streams_by basis.now layout zone.now then Some zone.now else None) }
{
    if !basis.plain() || layout != Layout::Plain {
        return None;
    }
    match zone {
        Zone::Utc => Some(Zone::Utc),
        Zone::Fixed(ahead) => Some(Zone::Fixed(*ahead)),
        Zone::File(_) => None,
    }
}
