//! The type of a certificate of a highest water.

use decimal_text::Text;
use highest_water::Peak;

/// A claim about the highest water at a station in a span of minutes, with the cells (consecutive
/// minutes) that show it. Contracts about the text of such a certificate require
/// `IsPeakCertificate`: each field is in the range given below.
#[derive(Drop)]
pub struct PeakCertificate {
    /// The station's name: UTF-8 of 1 to 400 bytes without ASCII control bytes (below 32, or 127).
    pub station: Text,
    /// The first minute of the span, counted from 1970-01-01T00:00Z, in the years 1 to 9999.
    pub begin: i64,
    /// The end of the span, counted in minutes from 1970-01-01T00:00Z, in the years 1 to 9999. It
    /// isn't part of the span.
    pub end: i64,
    /// The highest water of the reference station (the station itself, unless it has offsets). Its
    /// minute is in the years 1 to 9999. Its value is below 10^37 in size, in 10^-21 of the
    /// reference station's unit, times 4,147,200,000 (the total weight of a blend). A cell under it
    /// has 2 to 1,024 minutes.
    pub peak: Peak,
}
