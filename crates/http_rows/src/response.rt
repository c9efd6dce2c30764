//! Responses in two parts.

use crate::code::Code;
use crate::responses::write_head;
use arrayvec::ArrayString;
use decimal_text::Bytes;
use std::alloc::{AllocError, Global};
use std::marker::Model;

/// An HTTP response, with the head and the body stored separately, so that the body isn't copied. In
/// contracts its value is the bytes of the head, followed by the body's bytes.
#[derive(Drop)]
pub struct Response {
    head: ArrayString<256>,
    /// `None` in a response to `HEAD`.
    body: Option<Bytes>,
}

impl Model for Response {
    ghost use Rattle.std.specs.Prelude.{◌++◌, ℕ, List, [], unwrap_or};

    ghost Value = { List ℕ };

    ghost view = { λ r. r.head.bytes ++ unwrap_or r.body [] };
}

impl Response {
    ghost use Rattle.std.specs.Prelude.{◌≡◌, ◌≤◌, ◌++◌, [], length, IfOk};
    ghost use Rattle.http_rows.specs.Responses.{response};

    /// Returns the response with status `code` and the UTF-8 text `body`. `kind` is the media type of the
    /// body, such as `text/plain`, of at most 40 bytes. If `is_head_request` is true, the body is left
    /// out, but the head still gives the body's length. The call doesn't allocate.
    pub fn new(code: Code, kind: &str, body: Bytes, is_head_request: bool) -> Response
        requires { length kind.now ≤ 40 }
        ensures { result ≡ response code kind.now [] body is_head_request }
    {
        let mut head = ArrayString::new();
        write_head(code, kind, "", body.as_slice().len(), &mut head);
        let body = if is_head_request { None } else { Some(body) };
        Response { head, body }
    }

    /// Returns the bytes of the response in two parts, which are to be sent one after the other.
    pub fn parts(&self) -> (&[u8], &[u8])
        ensures { result.0.now ++ result.1.now ≡ self.now }
    {
        let head = self.head.as_bytes();
        match &self.body {
            Some(body) => (head, body.as_slice()),
            None => (head, &[]),
        }
    }

    /// Returns a list of the bytes of the head, followed by a copy of the body's bytes.
    ///
    /// # Errors
    /// [`AllocError`] if memory runs out.
    pub fn joined(&self, alloc: Global) -> Result<Bytes, AllocError>
        ensures { IfOk result (λ bytes. bytes ≡ self.now) }
    {
        let (head, body) = self.parts();
        let mut bytes = head.to_vec(alloc)?;
        bytes.extend_from_slice(body)?;
        Ok(Bytes::from_vec(bytes))
    }
}
