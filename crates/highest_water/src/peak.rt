//! The highest water of a span, with the cells that show it.

use crate::peak_cells::PeakCells;

/// A highest water of a span of time: the first minute with the greatest value, this value, and the
/// cells of the span, by which a check can see that no minute is higher. A peak that another
/// program made may be wrong; `check_peak` checks it.
#[derive(Drop)]
pub struct Peak {
    /// The first minute of the span with the greatest value, in minutes since 1970-01-01T00:00Z.
    pub at: i64,
    /// The greatest value of the span, in the curve's own unit.
    pub value: i128,
    /// The cells of the span, which show that no minute has a greater value, and none before `at`
    /// an equal one.
    pub cells: PeakCells,
}
