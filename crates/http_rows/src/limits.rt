//! The limits on the size of a request (this project).

/// The greatest length, in bytes, of a request's head: its request line and its fields, with the empty
/// line at their end.
pub const MOST_HEAD: usize = 8_192;

/// The greatest number of lines of a request's head: the request line, the fields and the empty line at
/// their end.
pub const MOST_LINES: usize = 66;

/// The greatest number of fields of a request's head.
pub const MOST_FIELDS: usize = 64;

/// The greatest number of digits of a request's Content-Length.
pub const MOST_DIGITS: usize = 18;

/// The greatest length, in bytes, of a request's body.
pub const MOST_BODY: usize = 4_194_304;
