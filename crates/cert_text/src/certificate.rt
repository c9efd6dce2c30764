//! The type of a certificate of events.

use curve_law::Tracks;
use decimal_text::Text;

/// A claim about the events at a station in a span of minutes: the station, the span and the mark,
/// and for each track (a list of events of two kinds) the cells (claims about consecutive minutes)
/// that divide the span. Contracts about the text of a certificate require `IsCertificate`: each
/// field is in the range that its comment gives.
#[derive(Drop)]
pub struct Certificate {
    /// The version of the certificate, 1 or 2. It selects the rule by which a checker decides that
    /// a cell has no event.
    pub version: u32,
    /// The station's name: UTF-8 of 1 to 400 bytes without ASCII control bytes (below 32, or 127).
    pub station: Text,
    /// The first minute of the span, counted from 1970-01-01T00:00Z, in the years 1 to 9999.
    pub begin: i64,
    /// The end of the span, counted in minutes from 1970-01-01T00:00Z, in the years 1 to 9999. It
    /// isn't part of the span.
    pub end: i64,
    /// The mark, a level of which the crossings are requested, in millionths of the station's unit,
    /// from -10,000,000,000 to 10,000,000,000; `None` if no crossings are requested.
    pub mark: Option<i64>,
    /// The cells of each track: quiet cells have 2 to 1,024 minutes, and events are of a kind that
    /// the track lists, at a level of at most 14 digits. The track of the mark's crossings is
    /// present exactly if there is a mark.
    pub tracks: Tracks,
}
