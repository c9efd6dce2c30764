//! A row of a table of offsets.

use crate::offset::{Offset, Slack};
use decimal_text::Text;

/// A subordinate station: its name, the name of its reference station, and its offsets.
#[derive(Drop)]
pub struct Offsets {
    /// The name of the station: from 1 to 400 bytes of UTF-8 without control bytes of ASCII (below
    /// 32, or 127).
    pub name: Text,
    /// The name of the reference station: from 1 to 400 bytes of UTF-8 without control bytes of
    /// ASCII (below 32, or 127).
    pub reference: Text,
    /// The offset from the reference's high waters to the station's.
    pub high: Offset,
    /// The offset from the reference's low waters to the station's.
    pub low: Offset,
    /// The minutes added to the times of the reference's slack waters, or `None` if the row has
    /// none.
    pub slack: Option<Slack>,
}
