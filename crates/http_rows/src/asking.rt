//! The request that a head and a body make, or the reason why it is rejected.

ghost use Rattle.std.specs.Prelude.{◌≡◌, ◌==◌, ◌≤◌, length, nat_lt, ◌&&◌, ◌||◌, ◌++◌, Some, None, IfOk, IfErr, codes};
ghost use Rattle.std.specs.List.{starts_with};
ghost use Rattle.http_rows.specs.Paths.{text_of};
ghost use Rattle.http_rows.specs.Rows.{is_get_or_head, is_post, is_head, length_in, field_rows, body_rows, first_row, path_of, query_of, asking};
ghost use Rattle.http_rows.specs.Workings.Views.{IsAsking, head_seen, asking_seen};

use crate::head::{Head, is_head};
use crate::limits::{MOST_BODY, MOST_DIGITS};
use crate::path::Path;
use crate::request_rejection::RequestRejection;
use crate::target::{path_of, query_of};
use decimal_text::digits;

/// A request that isn't rejected by its bytes, so that the predictor of tides answers it: its path, query
/// and body.
#[derive(Clone, Copy)]
pub struct Asking<'a> {
    pub path: Path,
    pub query: &'a [u8],
    pub body: &'a [u8],
    /// True if the reply must have no body, because the method is HEAD.
    pub is_head_request: bool,
}

fn is_get_or_head(head: &Head<'_>) -> bool
    ensures { result ≡ is_get_or_head (head_seen head.now) }
{
    head.method == b"GET".as_slice() || is_head(head)
}

fn is_post(head: &Head<'_>) -> bool
    ensures { result ≡ is_post (head_seen head.now) }
{
    head.method == b"POST".as_slice()
}

fn has_bad_host(head: &Head<'_>) -> bool
    ensures { result ≡ (nat_lt 1 head.now.host.count || (head.now.minor == 1 && (head.now.host.count == 0))) }
{
    head.host.count > 1 || head.minor == 1 && head.host.count == 0
}

/// Returns the length of the body in bytes, or `None` unless there is exactly one Content-Length, it has
/// only digits, and there is no Transfer-Encoding.
fn length_in(head: &Head<'_>) -> Option<u64>
    ensures { result ≡ length_in (head_seen head.now) }
{
    if head.content_length.count > 1 || head.transfer_coding.count > 0 {
        return None;
    }
    digits(head.content_length.first, MOST_DIGITS)
}

fn is_path(target: &[u8]) -> bool
    ensures { result ≡ starts_with (λ a b. a == b) target.now (codes "/") }
{
    target.starts_with(b"/".as_slice())
}

/// Returns the request with this `head`; its body is at the start of `rest`, the bytes after the head.
///
/// # Errors
/// The first [`RequestRejection`], in the order of the table of HTTP statuses, that applies.
pub(crate) fn check_request<'a>(
    head: &Head<'a>,
    rest: &'a [u8],
) -> Result<Asking<'a>, RequestRejection>
    ensures asks { IfOk result (λ a. (first_row (field_rows (head_seen head.now) ++ body_rows (head_seen head.now) rest.now) ≡ None)
        × (asking_seen a ≡ asking (head_seen head.now) rest.now)) }
    ensures rejects { IfErr result (λ r.
        first_row (field_rows (head_seen head.now) ++ body_rows (head_seen head.now) rest.now) ≡ Some r) }
    ensures answered { IfOk result (λ a. IsAsking (asking_seen a)) }
{
    if has_bad_host(head) || !is_path(head.target) {
        return Err(RequestRejection::BadRequest);
    }
    let Some(path) = Path::named(path_of(head.target)) else {
        return Err(RequestRejection::NotFound);
    };
    if !path.is_posted() && !is_get_or_head(head) {
        return Err(RequestRejection::RequiresGet);
    }
    if path.is_posted() && !is_post(head) {
        return Err(RequestRejection::RequiresPost);
    }
    if !is_post(head) {
        return Ok(asking_for(head, path, &[]));
    }
    if head.content_length.count == 0 {
        return Err(RequestRejection::LengthRequired);
    }
    let Some(length) = length_in(head) else {
        return Err(RequestRejection::BadRequest);
    };
    if length > MOST_BODY as u64 {
        return Err(RequestRejection::BodyTooLarge);
    }
    if (rest.len() as u64) < length {
        return Err(RequestRejection::BodyCutShort);
    }
    Ok(asking_for(head, path, &rest[..length as usize]))
}

fn asking_for<'a>(head: &Head<'a>, path: Path, body: &'a [u8]) -> Asking<'a>
    requires { text_of path ≡ path_of head.now.target.now }
    ensures { asking_seen result ≡ record {
      path = path_of head.now.target.now;
      query = query_of head.now.target.now;
      body = body.now;
      is_head_request = is_head (head_seen head.now);
    } }
{
    Asking {
        path,
        query: query_of(head.target),
        body,
        is_head_request: is_head(head),
    }
}
