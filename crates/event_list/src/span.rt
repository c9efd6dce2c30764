//! A span of time.

/// A span: the minutes from `begin` up to but not including `end`, counted from 1970-01-01T00:00Z.
#[derive(Clone, Copy, PartialEq, Eq)]
pub struct Span {
    /// The first minute, since 1970-01-01T00:00Z.
    pub begin: i64,
    /// The minute after the last one, since 1970-01-01T00:00Z.
    pub end: i64,
}
