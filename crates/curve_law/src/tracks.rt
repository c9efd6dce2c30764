//! The cells of a station's tracks.

use crate::cells::Cells;

/// The cells of a station over one span of time, one list for each kind of question: for its high
/// and low waters, and, if they are requested, for its slack waters and for the crossings of a mark
/// (a level that the request names). A cell is some consecutive minutes with no event after them,
/// or one minute with the event after it.
#[derive(Drop)]
pub struct Tracks {
    /// The cells of the high and low waters, or for a current of its greatest and least streams.
    pub turn: Cells,
    /// The cells of the slack waters, at which a current turns to flood or to ebb, or `None` if
    /// they aren't requested.
    pub slack: Option<Cells>,
    /// The cells of the crossings of the mark, or `None` if no mark is requested.
    pub mark: Option<Cells>,
}
