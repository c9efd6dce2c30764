//! Reading the cells (claims about consecutive minutes) on the lines of a certificate.

ghost use Rattle.std.specs.Prelude.{◌≡◌, ◌<◌, ◌^◌};
ghost use Rattle.cert_text.specs.Workings.LineReading.{quiet_for, quiet_of, event_cell_of, cell_of};

use crate::lines::after;
use crate::numbers::{LEVEL_DIGITS, level_after, size_of};
use crate::track_name::TrackName;
use crate::words::{first_kind, prefix_of, second_kind};
use curve_law::{Cell, Kind, MOST_MINUTES};

/// Returns a cell of `minutes` without an event, or `None` unless `minutes` is from 2 to 1,024.
fn quiet_for(minutes: u128) -> Option<Cell>
    ensures { result ≡ quiet_for minutes }
{
    if 2 <= minutes && minutes <= u128::from(MOST_MINUTES) {
        Some(Cell::Quiet(minutes as u32))
    } else {
        None
    }
}

/// Returns the cell of a line such as `q 1024`, 2 to 1,024 minutes without an event; `None` if
/// `line` isn't such a line.
#[tactic(auto, unfolding(crate::specs::Workings::LineReading::quiet_of))]
fn quiet_of(line: &[u8]) -> Option<Cell>
    ensures { result ≡ quiet_of line.now }
{
    let minutes = size_of(after(b"q ".as_slice(), line)?, LEVEL_DIGITS)?;
    quiet_for(minutes)
}

/// Returns the cell of the line of an event of `kind`, such as `t low -1000000`; `None` if `line`
/// isn't such a line.
#[tactic(auto, unfolding(crate::specs::Workings::LineReading::event_cell_of))]
fn event_cell_of(kind: Kind, line: &[u8]) -> Option<Cell>
    ensures { result ≡ event_cell_of kind line.now }
{
    let level = level_after(prefix_of(kind).as_bytes(), line)?;
    Some(Cell::Turn(kind, level))
}

/// Returns the cell on `line`: `q` and 2 to 1,024 minutes without an event, `s` for one such
/// minute, or an event of a kind that `track` lists and its level, such as `t low -1000000`, in
/// millionths of the station's unit. Returns `None` if `line`, which is without its LF, isn't a
/// cell that `track` may have.
#[tactic(auto, unfolding(crate::specs::Workings::LineReading::cell_of))]
pub fn cell_of(track: TrackName, line: &[u8]) -> Option<Cell>
    ensures { result ≡ cell_of track line.now }
{
    if line == b"s".as_slice() {
        return Some(Cell::Still);
    }
    if let Some(cell) = quiet_of(line) {
        return Some(cell);
    }
    if let Some(cell) = event_cell_of(first_kind(track), line) {
        return Some(cell);
    }
    event_cell_of(second_kind(track), line)
}
