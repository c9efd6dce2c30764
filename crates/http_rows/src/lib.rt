//! HTTP requests, and the replies to them that don't need the predictor.
//!
//! [`row_for`] returns the row of the server's table of HTTP statuses that applies to the bytes of a
//! request: the first reason to reject it, or the path, query and body for the predictor of tides.
//! [`write_rejection`] writes the fixed reply to a rejected request; a [`Response`] holds the predictor's
//! answer. [`enough`], [`fixed_reply`] and [`unavailable_reply`] start from a request's bytes.
#![tactic(auto)]

mod asking;
mod code;
mod deciding;
mod head;
mod head_lines;
mod limits;
mod path;
mod reply_row;
mod request_rejection;
mod response;
mod responses;
mod target;
mod worked;

pub use asking::Asking;
pub use code::Code;
pub use deciding::{enough, fixed_reply, unavailable_reply};
pub use head_lines::rest_from;
pub use limits::{MOST_BODY, MOST_HEAD};
pub use path::Path;
pub use reply_row::{ReplyRow, row_for};
pub use request_rejection::RequestRejection;
pub use response::Response;
pub use responses::{write_rejection, write_unavailable};
pub use worked::{sample_requests, worked_limits, worked_replies};
