//! The status codes of responses.

/// A status code of the server's responses (RFC 9110, section 15).
#[derive(Clone, Copy, PartialEq, Eq)]
pub enum Code {
    /// 200 (OK)
    Success,
    /// 400 (Bad Request)
    BadRequest,
    /// 404 (Not Found)
    NotFound,
    /// 405 (Method Not Allowed)
    MethodNotAllowed,
    /// 411 (Length Required)
    LengthRequired,
    /// 413 (Content Too Large)
    ContentTooLarge,
    /// 422 (Unprocessable Content)
    Unprocessable,
    /// 431 (Request Header Fields Too Large)
    FieldsTooLarge,
    /// 503 (Service Unavailable)
    Unavailable,
}
