//! The basis of a station's predictions: a reference station of the book, and offsets.

use crate::offset::{Offset, Slack};

/// What a station's events (high, low and slack waters) are computed from: the index of its
/// reference station in the book, and the offsets from the reference's events to its own. A station
/// of the book is its own reference, with offsets that change nothing: 0 minutes, a factor of
/// 1,000,000 millionths and a height of 0.
#[derive(Clone, Copy)]
pub struct Basis {
    /// The index of the reference station in the book's list, counted from 0.
    pub station: u32,
    /// The index of the station's row in the table's list, counted from 0, or `None` if the station
    /// is in the book.
    pub row: Option<u32>,
    /// The offset from the reference's high waters to the station's.
    pub high: Offset,
    /// The offset from the reference's low waters to the station's.
    pub low: Offset,
    /// The minutes added to the times of the reference's slack waters, or `None` if the station's
    /// row has none or the station is in the book.
    pub slack: Option<Slack>,
}

impl Basis {
    ghost use Rattle.std.specs.Prelude.{◌≡◌, ◌↔◌, None, IsTrue};
    ghost use Rattle.station_table.specs.Bases.{is_equal, is_plain, usual};

    /// Returns true if the offset of high waters is the same as the offset of low waters, in
    /// minutes, factor and height. The minutes of slack waters don't matter.
    pub fn equal(&self) -> bool
        ensures exact { result ≡ is_equal self.now }
        ensures same { IsTrue result ↔ (self.now.high ≡ self.now.low) }
    {
        self.high == self.low
    }

    /// Returns true if the station's events are the reference's, unchanged: the offsets of high and
    /// low waters add 0 minutes, multiply by 1 and add no height, and there are no minutes for
    /// slack waters.
    pub fn plain(&self) -> bool
        ensures exact { result ≡ is_plain self.now }
    {
        self.high == Offset::USUAL && self.low == Offset::USUAL && self.slack.is_none()
    }
}
