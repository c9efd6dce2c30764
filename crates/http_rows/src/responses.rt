//! Writing responses.

ghost use Rattle.std.specs.Prelude.{◌≡◌, ◌≤◌, ◌+◌, ◌++◌, [], length, codes, decimal};
ghost use Rattle.arrayvec.specs.ArrayString.{array_string_len};
ghost use Rattle.http_rows.specs.Responses.{status_of, code_of, body_of, allow_of, response_head, response, rejection_of, unavailable_to};

use crate::code::Code;
use crate::request_rejection::RequestRejection;
use arrayvec::ArrayString;
use itoa::Buffer;

#[tactic(auto, unfolding(crate::specs::Responses::status_of))]
fn status_of(code: Code) -> &'static str
    ensures text { result.now ≡ status_of code }
    ensures length_bound { length result.now ≤ 35 }
{
    match code {
        Code::Success => "200 OK",
        Code::BadRequest => "400 Bad Request",
        Code::NotFound => "404 Not Found",
        Code::MethodNotAllowed => "405 Method Not Allowed",
        Code::LengthRequired => "411 Length Required",
        Code::ContentTooLarge => "413 Content Too Large",
        Code::Unprocessable => "422 Unprocessable Content",
        Code::FieldsTooLarge => "431 Request Header Fields Too Large",
        Code::Unavailable => "503 Service Unavailable",
    }
}

#[tactic(auto, unfolding(crate::specs::Responses::code_of))]
fn code_of(rejection: RequestRejection) -> Code
    ensures { result ≡ code_of rejection }
{
    match rejection {
        RequestRejection::HeadTooLarge => Code::FieldsTooLarge,
        RequestRejection::HeadCutShort
        | RequestRejection::BadRequest
        | RequestRejection::BodyCutShort => { Code::BadRequest }
        RequestRejection::NotFound => Code::NotFound,
        RequestRejection::RequiresGet | RequestRejection::RequiresPost => Code::MethodNotAllowed,
        RequestRejection::LengthRequired => Code::LengthRequired,
        RequestRejection::BodyTooLarge => Code::ContentTooLarge,
    }
}

#[tactic(auto, unfolding(crate::specs::Responses::body_of))]
fn body_of(rejection: RequestRejection) -> &'static str
    ensures text { result.now ≡ body_of rejection }
    ensures length_bound { length result.now ≤ 24 }
{
    match rejection {
        RequestRejection::HeadTooLarge => "header fields too large\n",
        RequestRejection::HeadCutShort
        | RequestRejection::BadRequest
        | RequestRejection::BodyCutShort => { "bad request\n" }
        RequestRejection::NotFound => "not found\n",
        RequestRejection::RequiresGet | RequestRejection::RequiresPost => "method not allowed\n",
        RequestRejection::LengthRequired => "length required\n",
        RequestRejection::BodyTooLarge => "content too large\n",
    }
}

#[tactic(auto, unfolding(crate::specs::Responses::allow_of))]
fn allow_of(rejection: RequestRejection) -> &'static str
    ensures text { result.now ≡ allow_of rejection }
    ensures length_bound { length result.now ≤ 18 }
{
    match rejection {
        RequestRejection::RequiresGet => "Allow: GET, HEAD\r\n",
        RequestRejection::RequiresPost => "Allow: POST\r\n",
        _ => "",
    }
}

fn push_number(number: usize, out: &mut ArrayString<256>)
    requires { array_string_len out.old + 40 ≤ 256 }
    ensures bytes { out.new.bytes ≡ out.old.bytes ++ decimal number }
    ensures length_bound { array_string_len out.new ≤ array_string_len out.old + 40 }
{
    let mut buffer = Buffer::new();
    out.push_str(buffer.format(number));
}

/// Writes the head of a response to the empty `out`, for a body of `size` bytes of the media type
/// `kind`; `allow` is the line of the allowed methods, with its CR LF, or empty.
pub(crate) fn write_head(
    code: Code,
    kind: &str,
    allow: &str,
    size: usize,
    out: &mut ArrayString<256>,
)
    requires empty { out.old.bytes ≡ [] }
    requires kind { length kind.now ≤ 40 }
    requires allow { length allow.now ≤ 18 }
    ensures bytes { out.new.bytes ≡ response_head code kind.now allow.now size }
    ensures length_bound { array_string_len out.new ≤ 214 }
{
    out.push_str("HTTP/1.1 ");
    out.push_str(status_of(code));
    out.push_str("\r\nContent-Type: ");
    out.push_str(kind);
    out.push_str("; charset=utf-8\r\nContent-Length: ");
    push_number(size, out);
    out.push_str("\r\n");
    out.push_str(allow);
    out.push_str("Connection: close\r\n\r\n");
}

/// Writes a response of type text/plain to the empty `out`; `is_head_request` leaves the body out, but
/// not its length.
fn write_plain(
    code: Code,
    allow: &str,
    body: &str,
    is_head_request: bool,
    out: &mut ArrayString<256>,
)
    requires empty { out.old.bytes ≡ [] }
    requires allow { length allow.now ≤ 18 }
    requires body { length body.now ≤ 24 }
    ensures { out.new.bytes ≡ response code (codes "text/plain") allow.now body.now is_head_request }
{
    write_head(code, "text/plain", allow, body.len(), out);
    if !is_head_request {
        out.push_str(body);
    }
}

/// Writes to the empty `out` the reply to a request that is rejected for the reason `rejection`: a
/// response with a fixed text. If `is_head_request` is true, the body is left out, but the head still
/// gives the body's length. The call doesn't allocate.
pub fn write_rejection(
    rejection: RequestRejection,
    is_head_request: bool,
    out: &mut ArrayString<256>,
)
    requires { out.old.bytes ≡ [] }
    ensures { out.new.bytes ≡ rejection_of rejection is_head_request }
{
    write_plain(
        code_of(rejection),
        allow_of(rejection),
        body_of(rejection),
        is_head_request,
        out,
    );
}

/// Writes to the empty `out` the reply with status 503 (Service Unavailable), which replaces any other
/// reply if memory runs out. If `is_head_request` is true, the body is left out, but the head still gives
/// the body's length. The call doesn't allocate.
pub fn write_unavailable(is_head_request: bool, out: &mut ArrayString<256>)
    requires { out.old.bytes ≡ [] }
    ensures { out.new.bytes ≡ unavailable_to is_head_request }
{
    write_plain(Code::Unavailable, "", "no memory\n", is_head_request, out);
}
