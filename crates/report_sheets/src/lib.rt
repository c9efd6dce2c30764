//! Sheets: listings of one station's events, each in its layout, joined into a report.
//!
//! A [`Sheet`] has a word that requests it; it is opened with a [`Head`], accepts events one by one up
//! to its limit, and writes its text. [`Tally`] counts events, [`Ranges`] shows the highest and the
//! lowest water, and [`FirstLines`] the first events; each is a [`SheetOf`] a [`Layout`]. [`missing`]
//! returns a requested word that no sheet has, and [`fill`] writes the requested sheets. `specs/` has
//! the layouts.
#![tactic(auto)]

mod collected;
mod extreme;
mod first_lines;
mod head;
mod laws;
mod layout;
mod pages;
mod ranges;
mod sheet;
mod sheet_of;
mod taken;
mod tally;
mod worked;

pub use collected::Collected;
pub use first_lines::{FirstLines, FirstLinesPage};
pub use head::Head;
pub use laws::{pages_show_the_first_events, sheets_write_their_layouts};
pub use layout::Layout;
pub use pages::{fill, missing};
pub use ranges::{Ranges, RangesPage};
pub use sheet::Sheet;
pub use sheet_of::SheetOf;
pub use taken::Taken;
pub use tally::{Tally, TallyPage};
pub use worked::{worked_pages, worked_ranges, worked_tallies, worked_words};
