//! The reasons why a request is rejected without the predictor.

/// The reason why the server rejects a request by its head or the length of its body, without the
/// predictor.
#[derive(Clone, Copy, PartialEq, Eq)]
pub enum RequestRejection {
    /// The head doesn't end within 8,192 bytes, or has more than 66 lines, the empty line at its end
    /// included.
    HeadTooLarge,
    /// The request ended before its head did.
    HeadCutShort,
    /// The head isn't a valid head of HTTP/1.x with at most 64 fields, its target doesn't begin with `/`,
    /// or its Host, Content-Length or Transfer-Encoding is bad.
    BadRequest,
    /// The server doesn't have the request's path.
    NotFound,
    /// The path is for GET and HEAD, and the request has another method.
    RequiresGet,
    /// The path is for POST, and the request has another method.
    RequiresPost,
    /// The request is a POST without a Content-Length.
    LengthRequired,
    /// The body is longer than 4,194,304 bytes.
    BodyTooLarge,
    /// The request ended before its body did.
    BodyCutShort,
}

impl RequestRejection {
    ghost use Rattle.std.specs.Prelude.{◌≡◌};
    ghost use Rattle.http_rows.specs.Rows.{is_settled_by};

    /// Returns true if further bytes of the request can't change the rejection: if neither head nor body
    /// was cut short.
    pub(crate) fn is_settled(self) -> bool
        ensures { result ≡ is_settled_by self }
    {
        !matches!(
            self,
            RequestRejection::HeadCutShort | RequestRejection::BodyCutShort
        )
    }
}
