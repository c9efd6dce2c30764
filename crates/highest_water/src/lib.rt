//! The highest water of a span of time, found and checked: the first minute with a curve's greatest
//! value.
//!
//! A [`Peak`] is this minute, its value, and the cells that show it: parts of the span in which the
//! bound on the curve's change in a minute excludes a greater value (and before that minute an
//! equal one), and single minutes. [`find_peak`] finds a peak, and [`check_peak`] checks a peak
//! that any program may have made. The definitions are in `specs/`.
#![tactic(auto)]

mod checking;
mod covering;
mod finding;
mod higher;
mod laws;
mod lengths;
mod peak;
mod peak_cell;
mod peak_cell_finding;
mod peak_cells;
mod under;
mod under_pieces;
mod verdict;
mod walk;
mod worked;

pub use checking::check_peak;
pub use covering::peak_cover;
pub use finding::{find_peak, highest_point};
pub use laws::{
    accepted_highest_waters_are_right, blocks_are_halved, covers_are_accepted,
    highest_waters_are_those_of_more_minutes, spans_are_cut_into_blocks,
    spans_have_one_highest_water, under_cells_hold_nothing_higher,
};
pub use peak::Peak;
pub use peak_cell::PeakCell;
pub use peak_cells::PeakCells;
pub use verdict::PeakVerdict;
pub use worked::{worked_cells_under, worked_covers, worked_minutes, worked_verdicts};
