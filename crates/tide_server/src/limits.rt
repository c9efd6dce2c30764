//! The greatest length of a request (this project).

use http_rows::{MOST_BODY, MOST_HEAD};

/// The length of the longest request in bytes, 4,202,496: the longest head and the longest body.
pub const LONGEST: usize = MOST_HEAD + MOST_BODY;
