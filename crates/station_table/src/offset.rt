//! Offsets from the events of a reference station to the events of a subordinate station.

/// The change from a reference station's high or low waters to a subordinate station's: minutes are
/// added to the time, and the level is multiplied by a factor and then a height is added.
#[derive(Clone, Copy, PartialEq, Eq)]
pub struct Offset {
    /// The minutes added to the time, from -1,440 to 1,440.
    pub add: i32,
    /// The factor of the level, in millionths, from 1 to 100,000,000.
    pub times: i64,
    /// The height added to the multiplied level, in millionths of the station's unit, from
    /// -10,000,000,000 to 10,000,000,000.
    pub plus: i64,
}

impl Offset {
    /// The offset that changes nothing: 0 minutes, a factor of 1,000,000 millionths and a height of
    /// 0.
    pub const USUAL: Offset = Offset {
        add: 0,
        times: 1_000_000,
        plus: 0,
    };
}

/// The minutes added to the times of a reference station's slack waters, each from -1,440 to 1,440.
#[derive(Clone, Copy, PartialEq, Eq)]
pub struct Slack {
    /// The minutes added to the times of slack water before a flood, from -1,440 to 1,440.
    pub flood_add: i32,
    /// The minutes added to the times of slack water before an ebb, from -1,440 to 1,440.
    pub ebb_add: i32,
}
