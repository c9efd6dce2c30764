//! The row of the table of statuses that applies to a request.

ghost use Rattle.std.specs.Prelude.{◌≡◌, Option};
ghost use Rattle.http_rows.specs.Heads as heads;
ghost use Rattle.http_rows.specs.Rows as rows;
ghost use Rattle.http_rows.specs.Workings.Views.{IsAskingRow, row_seen};

use crate::asking::{Asking, check_request};
use crate::head::{is_head, read_head};
use crate::head_lines::{head_end, line_feeds};
use crate::limits::{MOST_HEAD, MOST_LINES};
use crate::request_rejection::RequestRejection;

/// The row of the server's table of HTTP statuses that applies to a request: the request is rejected, or
/// the predictor of tides answers it.
#[derive(Clone, Copy)]
pub enum ReplyRow<'a> {
    /// The request is rejected, by a reply with a fixed text. The second field is true if the reply has
    /// no body, because the request's method is HEAD.
    Rejects(RequestRejection, bool),
    /// The predictor of tides answers the request.
    Asks(Asking<'a>),
}

impl ReplyRow<'_> {
    ghost use Rattle.std.specs.Prelude.{◌≡◌};
    ghost use Rattle.http_rows.specs.Responses.{is_bodiless};
    ghost use Rattle.http_rows.specs.Rows.{is_settled};
    ghost use Rattle.http_rows.specs.Workings.Views.{row_seen};

    /// Returns true if further bytes of the request can't change which row of the table of HTTP statuses
    /// applies to it.
    pub fn is_settled(&self) -> bool
        ensures { result ≡ is_settled (row_seen self.now) }
    {
        match self {
            ReplyRow::Rejects(rejection, _) => rejection.is_settled(),
            ReplyRow::Asks(_) => true,
        }
    }

    /// Returns true if the reply to this row's request has no body, because the request's method is HEAD.
    pub fn is_bodiless(&self) -> bool
        ensures { result ≡ is_bodiless (row_seen self.now) }
    {
        match self {
            ReplyRow::Rejects(_, is_head_request) => *is_head_request,
            ReplyRow::Asks(asking) => asking.is_head_request,
        }
    }
}

/// Returns the row of the table of HTTP statuses that applies to `request`, all bytes of a request: the
/// first reason to reject it, or the path, query and body for the predictor of tides. A body is at most
/// 4,194,304 bytes long.
pub fn row_for(request: &[u8]) -> ReplyRow<'_>
    ensures row { rows.IsRow request.now (row_seen result) }
    ensures answered { IsAskingRow (row_seen result) }
{
    match head_end(request) {
        Some(end) => {
            let (bytes, rest) = request.split_at(end);
            ended_row(bytes, rest)
        }
        None => unended_row(request),
    }
}

fn unended_row(request: &[u8]) -> ReplyRow<'_>
    ensures { row_seen result ≡ rows.unended_row request.now }
{
    if request.len() < MOST_HEAD {
        ReplyRow::Rejects(RequestRejection::HeadCutShort, false)
    } else {
        ReplyRow::Rejects(RequestRejection::HeadTooLarge, false)
    }
}

fn ended_row<'a>(bytes: &'a [u8], rest: &'a [u8]) -> ReplyRow<'a>
    ensures row { (read : Option heads.Head) × heads.ReadsAs bytes.now read
        × (row_seen result ≡ rows.ended_row bytes.now read rest.now) }
    ensures answered { IsAskingRow (row_seen result) }
{
    let read = read_head(bytes);
    if line_feeds(bytes) > MOST_LINES {
        return ReplyRow::Rejects(RequestRejection::HeadTooLarge, false);
    }
    let Some(head) = read else {
        return ReplyRow::Rejects(RequestRejection::BadRequest, false);
    };
    match check_request(&head, rest) {
        Ok(asking) => ReplyRow::Asks(asking),
        Err(rejection) => ReplyRow::Rejects(rejection, is_head(&head)),
    }
}
