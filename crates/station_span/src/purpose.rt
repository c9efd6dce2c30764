//! The minutes of a reference station that an answer needs.

/// The purpose of a request about a station. It determines the minutes of the reference station
/// that the answer needs: for events, each minute at which an event can be moved into the requested
/// span by the offsets; for levels and the highest water, each minute that the offset moves into
/// it.
#[derive(Clone, Copy)]
pub enum Purpose {
    /// The request is for events: it needs the reference's minutes whose events the station's offsets
    /// can move into the span.
    Events,
    /// The request is for levels: it needs the reference's minutes that the station's offset moves into
    /// the span.
    Levels,
    /// The request is for the highest water: it needs the reference's minutes that the station's offset
    /// moves into the span. The span must have at least one minute.
    Highest,
}
