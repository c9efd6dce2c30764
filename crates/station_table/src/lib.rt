//! Subordinate stations (predicted by offsets from a reference station) and the table of their
//! offsets.
//!
//! [`read_offsets`] reads an [`OffsetTable`] from a CSV file with a row for each station: the
//! minutes that are added to the times of the reference's high and low waters, and the factors and
//! heights that change their levels. [`find`] returns the [`Basis`] of a station's name: the
//! reference station in a book of harmonic constants, and the offsets.
#![tactic(auto)]

mod basis;
mod borrowed_offsets;
mod clock;
mod fault;
mod field;
mod finding;
mod header;
mod offset;
mod offsets;
mod reading;
mod table;
mod worked;

pub use basis::Basis;
pub use fault::{OffsetFault, OffsetWhy};
pub use finding::{FindFault, find};
pub use offset::{Offset, Slack};
pub use offsets::Offsets;
pub use reading::read_offsets;
pub use table::OffsetTable;
pub use worked::{sample_rows, worked_bases, worked_fields, worked_tables};
