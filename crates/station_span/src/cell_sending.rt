//! The cells of a track, written while they are found. None of these functions allocates.

ghost use Rattle.std.specs.Prelude.{◌≡◌, ◌+◌, ◌*◌, ◌<◌, ◌≤◌, ◌^◌, [], length, map, All, IfOk, OnOk};
ghost use Rattle.std.specs.Option.{ForSome};
ghost use Rattle.cert_text.specs.Certificates.{IsCell};
ghost use Rattle.cert_text.specs.Lines.{cell_line_of, track_lines_of, lines_if_there, ended, joined};
ghost use Rattle.event_list.specs.Merging.{cells_left};
ghost use Rattle.station_span.specs.CellSending.{SendsCells, left_count};
ghost use Rattle.tide_edge.specs.Sending.{Sends, gone_for, held_after};

use arrayvec::ArrayString;
use cert_text::{TrackName, cell_line, heading_line, push_cell_line};
use curve_law::{Cell, Curve};
use interval_search::Search;
use tide_edge::{LineBuffer, Sink, WriteFailed, send};

/// The most bytes of a cell's line with its LF.
const MOST_CELL_BYTES: usize = 24;

/// The numbers of bytes and cells of a certificate that have been written so far.
#[derive(Clone, Copy)]
pub struct SentCells {
    /// The number of bytes that have been written.
    pub bytes: u64,
    /// The number of cells of which the lines have been written.
    pub cells: u64,
}

/// Writes to `out` a certificate's lines for the curve of `search`: the heading line of `track` and
/// a line for each remaining cell (several minutes without an event, or one minute with or without
/// one). Writes nothing if `search` is `None`. Returns the counts `sent` plus the bytes and cells
/// written here.
///
/// # Errors
/// [`WriteFailed`] if a write to `out` fails: then only the first bytes of these lines are written.
#[tactic(auto, using(tide_edge::proofs::SendLemmas::same_state))]
pub fn send_if_followed<C: Curve + Drop, S: Sink>(
    out: &mut S,
    sent: SentCells,
    track: TrackName,
    search: Option<Search<C>>,
) -> Result<SentCells, WriteFailed>
    requires cells { ForSome search (λ search. All IsCell search.remaining) }
    requires count_bound { sent.bytes + 24 + 24 * left_count search < 2 ^ 64 }
    requires count { sent.cells + left_count search < 2 ^ 64 }
    ensures sends { SendsCells (S.state out.old) (S.state out.new) sent (joined (lines_if_there track (cells_left search)))
        (left_count search) result }
    ensures length_bound { IfOk result (λ done. done.bytes ≤ sent.bytes + 24 + 24 * left_count search) }
{
    match search {
        Some(search) => send_track(out, sent, track, search),
        None => Ok(sent),
    }
}

/// Writes to `out` a certificate's lines for the curve of `search`: the heading line of `track` and
/// a line for each remaining cell (several minutes without an event, or one minute with or without
/// one). Returns the counts `sent` plus the bytes and cells written here.
///
/// # Errors
/// [`WriteFailed`] if a write to `out` fails: then only the first bytes of these lines are written.
pub fn send_track<C: Curve + Drop, S: Sink>(
    out: &mut S,
    sent: SentCells,
    track: TrackName,
    search: Search<C>,
) -> Result<SentCells, WriteFailed>
    requires cells { All IsCell search.remaining }
    requires count_bound { sent.bytes + 24 + 24 * length search.remaining < 2 ^ 64 }
    requires count { sent.cells + length search.remaining < 2 ^ 64 }
    ensures sends { SendsCells (S.state out.old) (S.state out.new) sent (joined (track_lines_of track search.remaining)) (length search.remaining) result }
    ensures length_bound { IfOk result (λ done. done.bytes ≤ sent.bytes + 24 + 24 * length search.remaining) }
{
    let mut line = ArrayString::new();
    heading_line(track, &mut line);
    let bytes = send(out, sent.bytes, line.as_str())?;
    let cells = sent.cells;
    send_cells(out, SentCells { bytes, cells }, search)
}

/// Writes the line of each remaining cell of `search`.
fn send_cells<C: Curve + Drop, S: Sink>(
    out: &mut S,
    sent: SentCells,
    search: Search<C>,
) -> Result<SentCells, WriteFailed>
    requires cells { All IsCell search.remaining }
    requires count_bound { sent.bytes + 24 * length search.remaining < 2 ^ 64 }
    requires count { sent.cells + length search.remaining < 2 ^ 64 }
    ensures sends { SendsCells (S.state out.old) (S.state out.new) sent (joined (map cell_line_of search.remaining)) (length search.remaining) result }
    ensures length_bound { IfOk result (λ done. done.bytes ≤ sent.bytes + 24 * length search.remaining) }
{
    let mut search = search;
    let mut buffer = LineBuffer::new();
    let mut bytes = sent.bytes;
    let mut cells = sent.cells;
    while let Some(found) = search.next() {
        bytes = put_cell(&mut buffer, out, bytes, &found.cell)?;
        cells += 1;
    }
    let bytes = buffer.end(out, bytes)?;
    Ok(SentCells { bytes, cells })
}

/// Appends the line of `cell` to `buffer`, which is written first if the line doesn't fit. Returns
/// `sent` plus the number of bytes written.
fn put_cell<S: Sink>(
    buffer: &mut LineBuffer,
    out: &mut S,
    sent: u64,
    cell: &Cell,
) -> Result<u64, WriteFailed>
    requires cell { IsCell cell.now }
    requires count_bound { sent + length buffer.old.text.bytes < 2 ^ 64 }
    ensures sends { Sends (S.state out.old) (S.state out.new) sent
        (gone_for buffer.old.text.bytes (ended (cell_line_of cell.now))) result }
    ensures holds { OnOk result (buffer.new.text.bytes ≡ held_after buffer.old.text.bytes (ended (cell_line_of cell.now))) }
    ensures length_bound { length (ended (cell_line_of cell.now)) ≤ 24 }
{
    if buffer.has_room(MOST_CELL_BYTES) {
        push_cell(buffer, cell);
        return Ok(sent);
    }
    put_cell_at_end(buffer, out, sent, cell)
}

/// Appends the line of `cell` to `buffer`, which has room for it.
fn push_cell(buffer: &mut LineBuffer, cell: &Cell)
    requires cell { IsCell cell.now }
    requires room { length buffer.old.text.bytes + MOST_CELL_BYTES ≤ 4096 }
    ensures holds { buffer.new.text.bytes ≡ held_after buffer.old.text.bytes (ended (cell_line_of cell.now)) }
    ensures nothing_gone { gone_for buffer.old.text.bytes (ended (cell_line_of cell.now)) ≡ [] }
    ensures length_bound { length (ended (cell_line_of cell.now)) ≤ 24 }
{
    push_cell_line(cell, &mut buffer.text);
}

/// Appends the line of `cell` to `buffer`, which is written first if the line doesn't fit. Returns
/// `sent` plus the number of bytes written.
#[cold]
#[inline(never)]
fn put_cell_at_end<S: Sink>(
    buffer: &mut LineBuffer,
    out: &mut S,
    sent: u64,
    cell: &Cell,
) -> Result<u64, WriteFailed>
    requires cell { IsCell cell.now }
    requires count_bound { sent + length buffer.old.text.bytes < 2 ^ 64 }
    ensures sends { Sends (S.state out.old) (S.state out.new) sent
        (gone_for buffer.old.text.bytes (ended (cell_line_of cell.now))) result }
    ensures holds { OnOk result (buffer.new.text.bytes ≡ held_after buffer.old.text.bytes (ended (cell_line_of cell.now))) }
    ensures length_bound { length (ended (cell_line_of cell.now)) ≤ 24 }
{
    let mut line = ArrayString::<24>::new();
    cell_line(cell, &mut line);
    buffer.put(out, sent, line.as_str())
}
