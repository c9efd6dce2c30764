//! The report of a station's events.

ghost use Rattle.std.specs.Prelude.{◌≡◌, ◌≢◌, ◌≤◌, [], All, IfOk, map, unwrap_or};
ghost use Rattle.decimal_text.specs.Expected.{EqualsUnlessNoMemory};
ghost use Rattle.event_text.specs.Lines.{IsListed};
ghost use Rattle.harmonics_book.specs.declared.book.Units.{Units};
ghost use Rattle.report_sheets.specs.Pages.{pages_of};
ghost use Rattle.tide_desk.specs.Answers.{head_of, reported};
ghost use Rattle.tide_fault.specs.Faults.{refusal_is_out_of_memory};

use decimal_text::{Bytes, Words};
use question::ValidQuestion;
use report_sheets::{Head, Sheet, fill};
use std::alloc::{AllocError, Global};
use tide_answer::{Answer, Listed, StationData, list_question};
use tide_fault::Refusal;

/// Returns the answer of the command `report`: a page for each of `sheets` that `question` requests,
/// with the events of the station, span and mark of `question`. Each page's head has the station's
/// name, the unit and the current minute `now`.
///
/// # Errors
/// [`Refusal::NoMemory`] if memory runs out; otherwise the first [`Refusal`] in this order: the station
/// isn't found, it is a hydraulic current, the span is backward or outside the file's years, the
/// station's constants exceed a limit ([`Refusal::TooLarge`] or [`Refusal::TooSteep`]), the span is
/// longer than 5,270,400 minutes, or the request has a mark but the offsets of the station's high and
/// low waters differ.
#[tactic(auto, unfolding(crate::specs::Answers::reported))]
pub fn report(
    alloc: Global,
    stations: &StationData<'_>,
    question: &ValidQuestion<'_>,
    now: i64,
    sheets: Vec<Box<dyn Sheet>>,
) -> Result<Answer, Refusal>
    ensures { EqualsUnlessNoMemory refusal_is_out_of_memory
        (reported (map sheet_spec sheets.items) stations.now.book stations.now.table question.now now) result }
{
    let listed = list_question(alloc, stations, question)?;
    let text = pages(alloc, listed, now, &question.get().sheets, sheets)?;
    Ok(Answer {
        text,
        rejected: false,
        cells: 0,
    })
}

/// Returns the pages of the sheets in `wanted`, or no pages if there is no list of sheets.
fn pages(
    alloc: Global,
    listed: Listed,
    now: i64,
    wanted: &Option<Words>,
    sheets: Vec<Box<dyn Sheet>>,
) -> Result<Bytes, AllocError>
    requires name { All (λ b. (32 ≤ b) × (b ≢ 127)) listed.name }
    requires units { listed.units ≢ Units.KnotsSquared }
    requires events { All (IsListed listed.units) listed.events }
    ensures { IfOk result (λ text. text
        ≡ pages_of (map sheet_spec sheets.items) (unwrap_or wanted.now []) (head_of listed now) listed.events) }
{
    let head = Head {
        name: listed.name,
        units: listed.units,
        now,
    };
    match wanted {
        Some(wanted) => fill(alloc, sheets, wanted, &head, &listed.events),
        None => fill(
            alloc,
            sheets,
            &Words::from_vec(Vec::new(alloc)),
            &head,
            &listed.events,
        ),
    }
}
