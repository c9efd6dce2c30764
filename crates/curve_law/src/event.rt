//! An event of a track, such as a high water.

use crate::kind::Kind;

/// An event of a track: between a minute and the next one, the track's value rises from 0 or below
/// to above 0, or falls from above 0 to 0 or below. It happens after its minute and no later than
/// the next minute.
#[derive(Clone, Copy, PartialEq, Eq)]
pub struct Event {
    /// The minute after which the event happens, in minutes since 1970-01-01T00:00Z.
    pub minute: i64,
    /// What happens, such as a high water.
    pub kind: Kind,
    /// The level at the event's minute, in millionths of the station's unit.
    pub level: i64,
}
