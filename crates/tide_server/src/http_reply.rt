//! The reply to a request.

ghost use Rattle.std.specs.Prelude.{◌≡◌, ◌≤◌, false, length, IfOk};
ghost use Rattle.decimal_text.specs.Expected.{EqualsUnlessNoMemory};
ghost use Rattle.harmonics_book.specs.Books.{IsBook};
ghost use Rattle.question.specs.Asked.{IsAsked, IsZoneWord};
ghost use Rattle.tide_answer.specs.Answers.{answered};
ghost use Rattle.tide_fault.specs.Faults.{refusal_is_out_of_memory};
ghost use Rattle.tide_answer.specs.Givens.{IsGiven, given_seen};
ghost use Rattle.tide_edge.specs.Clocks.{IsClockMinute};
ghost use Rattle.question.specs.Questions.{is_out_of_memory, question_of};
ghost use Rattle.tide_server.specs.Queries.{pairs_of};
ghost use Rattle.tide_server.specs.Replies.{IsReply, answer_reply, asking_reply, fault_reply, given_with, names_file, zone_of};
ghost use Rattle.http_rows.specs.Responses.{rejection_of};
ghost use Rattle.http_rows.specs.declared.limits.TheConstants.{MOST_BODY};
ghost use Rattle.http_rows.specs.Workings.Views.{IsAsking, asking_seen};
ghost use Rattle.zone_time.specs.Zones.{IsZone};

use crate::query::{command_of, items_of};
use arrayvec::ArrayString;
use decimal_text::Bytes;
use harmonics_book::Book;
use http_rows::{Asking, Code, ReplyRow, RequestRejection, Response, row_for, write_rejection};
use question::{AskFault, Origin, Question, ValidQuestion, ZoneWord, read_items};
use station_table::OffsetTable;
use std::alloc::{AllocError, Global};
use tide_answer::{Fault, GivenView, Refusal, StationData, answer_valid, fault_line};
use zone_time::Zone;

/// Returns the HTTP reply to `request`, the bytes of a whole request, with the harmonic constants `book`
/// and the offsets `table`, at the minute `now` since 1970-01-01T00:00Z, from -10,000,000,000 to
/// 10,000,000,000. Bytes after the request are ignored.
///
/// The server doesn't call this function: it writes a reply with a fixed text, such as to a
/// malformed request, without allocating.
///
/// # Errors
/// [`AllocError`] if memory runs out.
///
/// # Examples
/// ```
/// let request = b"GET /stations HTTP/1.1\r\nHost: a\r\n\r\n".as_slice();
/// let answered = reply(alloc, &book, &table, request, 15_791_220)?;
/// assert!(rt; answered.as_slice().starts_with(b"HTTP/1.1 200 OK\r\n"));
/// ```
pub fn reply(
    alloc: Global,
    book: &Book,
    table: &OffsetTable,
    request: &[u8],
    now: i64,
) -> Result<Bytes, AllocError>
    requires book { IsBook book.now }
    requires now { IsClockMinute now }
    ensures { IfOk result (IsReply book.now table.now now request.now) }
{
    match row_for(request) {
        ReplyRow::Rejects(rejection, is_head_request) => rejection_reply(
            alloc,
            rejection,
            is_head_request,
        ),
        ReplyRow::Asks(asking) => whole_reply(alloc, &StationData::new(book, table), &asking, now),
    }
}

/// Returns the reply to a request that no fixed reply rejects, as one list of bytes.
///
/// # Errors
/// [`AllocError`] if memory runs out.
fn whole_reply(
    alloc: Global,
    stations: &StationData<'_>,
    asking: &Asking<'_>,
    now: i64,
) -> Result<Bytes, AllocError>
    requires asking { IsAsking (asking_seen asking.now) }
    requires now { IsClockMinute now }
    ensures { IfOk result (λ bytes. bytes ≡ asking_reply stations.now.book stations.now.table now (asking_seen asking.now)) }
{
    asking_reply(alloc, stations, asking, now)?.joined(alloc)
}

/// Returns the reply with a fixed text for `rejection`.
fn rejection_reply(
    alloc: Global,
    rejection: RequestRejection,
    is_head_request: bool,
) -> Result<Bytes, AllocError>
    ensures { IfOk result (λ bytes. bytes ≡ rejection_of rejection is_head_request) }
{
    let mut out = ArrayString::new();
    write_rejection(rejection, is_head_request, &mut out);
    Ok(Bytes::from_vec(out.as_bytes().to_vec(alloc)?))
}

/// Returns the reply to a request that no fixed reply rejects.
///
/// # Errors
/// [`AllocError`] if memory runs out.
#[tactic(auto, unfolding(crate::specs::Replies::asking_reply, crate::specs::Replies::question_reply))]
pub(crate) fn asking_reply(
    alloc: Global,
    stations: &StationData<'_>,
    asking: &Asking<'_>,
    now: i64,
) -> Result<Response, AllocError>
    requires asking { IsAsking (asking_seen asking.now) }
    requires now { IsClockMinute now }
    ensures { IfOk result (λ response. response ≡ asking_reply stations.now.book stations.now.table now (asking_seen asking.now)) }
{
    match read_question(alloc, asking) {
        Ok(question) => {
            let valid = ValidQuestion::new(&question);
            let replied = answer_reply(alloc, stations, &valid, asking, now);
            drop(question);
            replied
        }
        Err(fault) => {
            if is_out_of_memory(fault) {
                return Err(AllocError);
            }
            fault_reply(
                alloc,
                Code::BadRequest,
                stations.table(),
                Fault::Ask(fault),
                asking.is_head_request,
            )
        }
    }
}

/// Returns the question that the path and the query of a request make, or its fault.
fn read_question(alloc: Global, asking: &Asking<'_>) -> Result<Question, AskFault>
    ensures exact { EqualsUnlessNoMemory is_out_of_memory (question_of (pairs_of (asking_seen asking.now))) result }
    ensures asked { IfOk result IsAsked }
    ensures no_file { IfOk result (λ question. names_file question.zone ≡ false) }
{
    let items = items_of(alloc, asking.query)?;
    let command = command_of(asking.path);
    let read = read_items(alloc, Origin::Query, command, &items);
    drop(items);
    read
}

/// Returns the reply to `question`.
#[tactic(auto, unfolding(crate::specs::Replies::answer_reply))]
fn answer_reply(
    alloc: Global,
    stations: &StationData<'_>,
    question: &ValidQuestion<'_>,
    asking: &Asking<'_>,
    now: i64,
) -> Result<Response, AllocError>
    requires asking { IsAsking (asking_seen asking.now) }
    requires now { IsClockMinute now }
    requires zone { IsZoneWord question.now.zone }
    requires no_file { names_file question.now.zone ≡ false }
    ensures { IfOk result (λ response. response ≡ answer_reply stations.now.table question.now.layout
        (answered stations.now.book stations.now.table question.now (given_with question.now (asking_seen asking.now) now))
        asking.now.is_head_request) }
{
    let zone = zone_of(&question.get().zone);
    let inputs = given_with(&zone, asking.body, now);
    let answered = answer_valid(alloc, stations, question, inputs);
    drop(zone);
    match answered {
        Ok(answer) => {
            let kind = question.get().layout.media_type();
            Ok(Response::new(Code::Success, kind, answer.text, asking.is_head_request))
        }
        Err(refusal) => {
            if refusal_is_out_of_memory(refusal) {
                return Err(AllocError);
            }
            fault_reply(
                alloc,
                Code::Unprocessable,
                stations.table(),
                Fault::Refused(refusal),
                asking.is_head_request,
            )
        }
    }
}

/// Returns the inputs of the answer other than the harmonic constants and the offsets. The certificate
/// is the body of the request.
fn given_with<'a>(zone: &'a Zone, body: &'a [u8], now: i64) -> GivenView<'a>
    requires zone { IsZone zone.now }
    requires body { length body.now ≤ MOST_BODY }
    requires now { IsClockMinute now }
    ensures exact { given_seen result ≡ record { zone = zone.now; certificate = body.now; now = now } }
    ensures inputs { IsGiven (given_seen result) }
{
    GivenView {
        zone,
        certificate: body,
        now,
    }
}

/// Returns the zone of a query's `word`, which never names a file.
fn zone_of(word: &ZoneWord) -> Zone
    requires word { IsZoneWord word.now }
    requires no_file { names_file word.now ≡ false }
    ensures exact { result ≡ zone_of word.now }
    ensures zone { IsZone result }
{
    match word {
        ZoneWord::Utc => Zone::Utc,
        ZoneWord::Fixed(minutes) => Zone::Fixed(*minutes),
        ZoneWord::Named(_) => unreachable!(),
    }
}

/// Returns true if `fault` says that memory ran out.
fn is_out_of_memory(fault: AskFault) -> bool
    ensures { result ≡ is_out_of_memory fault }
{
    matches!(fault, AskFault::NoMemory)
}

/// Returns true if `refusal` says that memory ran out.
fn refusal_is_out_of_memory(refusal: Refusal) -> bool
    ensures { result ≡ refusal_is_out_of_memory refusal }
{
    matches!(refusal, Refusal::NoMemory)
}

/// Returns the reply with the line that reports `fault`, as HTTP status `code`. If `is_head_request`,
/// the line isn't sent.
fn fault_reply(
    alloc: Global,
    code: Code,
    table: &OffsetTable,
    fault: Fault,
    is_head_request: bool,
) -> Result<Response, AllocError>
    ensures { IfOk result (λ response. response ≡ fault_reply code table.now fault is_head_request) }
{
    let line = fault_line(alloc, &fault, table);
    drop(fault);
    Ok(Response::new(code, "text/plain", line?, is_head_request))
}
