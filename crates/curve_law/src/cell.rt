//! A cell: consecutive minutes of a track, and which event is after them.

use crate::kind::Kind;

/// A cell of a track: some consecutive minutes, and the claim that no event is after any of them,
/// or that one is after its only minute. The first minute of a cell isn't stored: a list of cells
/// has no gaps, so each cell begins where the cell before it ends.
#[derive(Clone, Copy, Debug, PartialEq, Eq)]
pub enum Cell {
    /// A quiet cell: this number of minutes, from 2 to 1,024, with no event after any of them. The
    /// type doesn't enforce the range; a check of cells does.
    Quiet(u32),
    /// A cell of one minute with no event after it.
    Still,
    /// A cell of one minute with an event of this kind after it. The number is the level of the
    /// event, the level at this minute, in millionths of the station's unit.
    Turn(Kind, i64),
}
