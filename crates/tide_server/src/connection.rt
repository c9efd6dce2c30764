//! One connection.

ghost use Rattle.std.specs.Prelude.{◌≡◌, ◌==◌, ◌||◌, ℕ, List, Some, IsTrue, is_err};
ghost use Rattle.tide_edge.specs.Clocks.{IsClockMinute};
ghost use Rattle.tide_edge.specs.Doors.{door_after_close, just_taken};
ghost use Rattle.http_rows.specs.Responses.{rejection_of, unavailable_to};
ghost use Rattle.http_rows.specs.Rows.{is_settled};
ghost use Rattle.tide_server.specs.Workings.Connections.{Replies, RowSent, SentBy, Went, with_latest};
ghost use Rattle.http_rows.specs.Workings.Views.{IsAskingRow, row_seen};

use crate::http_reply::asking_reply;
use crate::request::Request;
use crate::sent_text::send;
use crate::served_data::ValidServedData;
use arrayvec::ArrayString;
use http_rows::{
    ReplyRow, RequestRejection, Response, row_for, write_rejection, write_unavailable,
};
use std::alloc::Global;
use tide_edge::{Clock, Door, Failed};

/// Serves the open connection and closes it. A failed read or write ends only this connection; nothing
/// more is read or written over it.
///
/// # Errors
/// [`Failed`] if the clock failed.
pub(crate) fn serve_connection<D: Door, K: Clock>(
    alloc: Global,
    served_data: &ValidServedData,
    request: &mut Request,
    door: &mut D,
    clock: &mut K,
) -> Result<(), Failed>
    requires is_open { IsTrue (D.state door.old).listener_state.is_open }
    requires fresh { (D.state door.old).connections.latest ≡ Some just_taken }
    ensures { Went (is_err result) served_data.now (λ c. door_after_close (with_latest c (D.state door.old))) (D.state door.new)
        (K.state clock.old) (K.state clock.new) }
{
    let answered = answer_connection(alloc, served_data, request, door, clock);
    door.close();
    answered
}

/// Reads the open connection until its bytes determine a reply, or to their end, and no further, since a
/// client may wait for its reply before it sends more. Then it replies.
fn answer_connection<D: Door, K: Clock>(
    alloc: Global,
    served_data: &ValidServedData,
    request: &mut Request,
    door: &mut D,
    clock: &mut K,
) -> Result<(), Failed>
    requires is_open { IsTrue (D.state door.old).listener_state.is_open }
    requires fresh { (D.state door.old).connections.latest ≡ Some just_taken }
    ensures { Went (is_err result) served_data.now (λ c. with_latest c (D.state door.old)) (D.state door.new)
        (K.state clock.old) (K.state clock.new) }
{
    request.clear();
    loop {
        let Ok(count) = request.read_more(door) else {
            return Ok(());
        };
        let bytes = request.as_slice();
        if bytes.is_empty() {
            return Ok(());
        }
        let row = row_for(bytes);
        if ends_reading(count, &row) {
            return answer_row(alloc, served_data, &row, door, clock);
        }
    }
}

/// Returns true if nothing more is to be read after a piece of `count` bytes; `row` is the row of the
/// table of HTTP statuses for the bytes read until now.
fn ends_reading(count: usize, row: &ReplyRow<'_>) -> bool
    ensures { result ≡ (count == 0 || is_settled (row_seen row.now)) }
{
    count == 0 || row.is_settled()
}

/// Replies to the bytes that were read of a connection, at the present minute.
fn answer_row<D: Door, K: Clock>(
    alloc: Global,
    served_data: &ValidServedData,
    row: &ReplyRow<'_>,
    door: &mut D,
    clock: &mut K,
) -> Result<(), Failed>
    requires is_open { IsTrue (D.state door.old).listener_state.is_open }
    requires answered { IsAskingRow (row_seen row.now) }
    ensures { RowSent (is_err result) served_data.now (row_seen row.now)
        (D.state door.old) (D.state door.new) (K.state clock.old) (K.state clock.new) }
{
    let now = clock.minute()?;
    let _ = send_reply(alloc, served_data, row, now, door);
    Ok(())
}

/// Sends the reply to a request, or, if memory runs out, the reply with HTTP status 503.
fn send_reply<D: Door>(
    alloc: Global,
    served_data: &ValidServedData,
    row: &ReplyRow<'_>,
    now: i64,
    door: &mut D,
) -> Result<(), Failed>
    requires is_open { IsTrue (D.state door.old).listener_state.is_open }
    requires answered { IsAskingRow (row_seen row.now) }
    requires now { IsClockMinute now }
    ensures { (text : List ℕ) × Replies served_data.now now (row_seen row.now) text
        × SentBy (is_err result) text (D.state door.old) (D.state door.new) }
{
    match row {
        ReplyRow::Rejects(rejection, is_head_request) => send_rejection(
            *rejection,
            *is_head_request,
            door,
        ),
        ReplyRow::Asks(asking) => match asking_reply(alloc, &served_data.stations(), asking, now) {
            Ok(response) => send_response(&response, door),
            Err(_) => send_unavailable(asking.is_head_request, door),
        },
    }
}

/// Sends a response: its head, and then its body.
fn send_response<D: Door>(response: &Response, door: &mut D) -> Result<(), Failed>
    requires { IsTrue (D.state door.old).listener_state.is_open }
    ensures { SentBy (is_err result) response.now (D.state door.old) (D.state door.new) }
{
    let (head, body) = response.parts();
    send(door, head)?;
    send(door, body)
}

/// Sends the reply with a fixed text for `rejection`.
fn send_rejection<D: Door>(
    rejection: RequestRejection,
    is_head_request: bool,
    door: &mut D,
) -> Result<(), Failed>
    requires { IsTrue (D.state door.old).listener_state.is_open }
    ensures { SentBy (is_err result) (rejection_of rejection is_head_request) (D.state door.old) (D.state door.new) }
{
    let mut text = ArrayString::new();
    write_rejection(rejection, is_head_request, &mut text);
    send(door, text.as_str().as_bytes())
}

/// Sends the reply with HTTP status 503, which replaces another if memory runs out.
fn send_unavailable<D: Door>(is_head_request: bool, door: &mut D) -> Result<(), Failed>
    requires { IsTrue (D.state door.old).listener_state.is_open }
    ensures { SentBy (is_err result) (unavailable_to is_head_request) (D.state door.old) (D.state door.new) }
{
    let mut text = ArrayString::new();
    write_unavailable(is_head_request, &mut text);
    send(door, text.as_str().as_bytes())
}
