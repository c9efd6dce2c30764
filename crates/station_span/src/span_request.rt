//! A span of a station, with an optional mark.

/// The span and the optional mark of a request about a station.
#[derive(Clone, Copy)]
pub struct SpanRequest {
    /// The first minute of the span, in minutes since 1970-01-01T00:00Z.
    pub begin: i64,
    /// The end of the span, in minutes since 1970-01-01T00:00Z. It isn't part of the span.
    pub end: i64,
    /// The mark, in millionths of the station's unit: the level whose crossings are listed. `None` if no
    /// crossings are listed.
    pub mark: Option<i64>,
}
