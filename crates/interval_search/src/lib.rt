//! The search for the cells of a span of time: consecutive minutes without an event, and single
//! minutes.
//!
//! [`search`] returns all cells of a span at once, and a [`Search`] returns them one after the
//! other without allocating. Both evaluate their curve approximately, only at the ends of cells,
//! and at no minute twice: the ends of the parts that are still to be searched are kept on a small
//! stack with their approximate values. If these don't decide a cell, the exact values are used.
//!
//! A search for another kind of cells supplies a [`PieceRule`]: [`front_at`] and [`next_piece`]
//! find the pieces (parts of the span by halving) that the rule leaves whole, one after the other.
#![tactic(auto)]

mod found;
mod front;
mod looking;
mod pending;
mod piece;
mod quiet_pieces;
mod rule;
mod span_cells;

pub use found::Found;
pub use front::{Front, front_at, next_piece};
pub use looking::Search;
pub use piece::{Piece, block_end};
pub use rule::PieceRule;
pub use span_cells::search;
