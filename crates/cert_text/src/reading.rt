//! Reading certificates from text.

ghost use Rattle.std.specs.Prelude.{◌≡◌, ◌≤◌, length, IfOk, is_some};
ghost use Rattle.decimal_text.specs.Expected.{EqualsUnlessNoMemory};
ghost use Rattle.decimal_text.specs.declared.limits.TheConstants.{MOST_BYTES};
ghost use Rattle.cert_text.specs.ByLine.{Takes, TakesExactly, part_if, part_after};
ghost use Rattle.cert_text.specs.Certificates.{IsCertificate};
ghost use Rattle.cert_text.specs.Lines.{heading_of};
ghost use Rattle.cert_text.specs.Spelling.{Reads};
ghost use Rattle.cert_text.specs.Readings.{track_part, last_part, tracks_part, certificate_part, certificate_of, is_out_of_memory};

use crate::cell_reading::cell_of;
use crate::certificate::Certificate;
use crate::fault::CertFault;
use crate::line_cursor::{ItemForm, LineCursor};
use crate::parts::{items, mark, moment, station, version, word};
use crate::track_name::TrackName;
use curve_law::{Cell, Cells, Tracks};
use decimal_text::Text;
use std::alloc::Global;

impl ItemForm for TrackName {
    ghost use Rattle.cert_text.specs.Workings.LineReading.{cell_of};

    type Item = Cell;

    ghost item_of = { cell_of };

    fn read_item(&self, line: &[u8]) -> Option<Cell> {
        cell_of(*self, line)
    }
}

/// Reads a track: its heading and its cells. Fails with the number of the heading's line if this is
/// another line, or if memory runs out.
fn read_track(
    alloc: Global,
    lines: &mut LineCursor<'_>,
    track: TrackName,
) -> Result<Cells, CertFault>
    ensures { Takes (track_part track) lines.old lines.new result }
{
    word(lines, track.heading())?;
    Ok(Cells::from_vec(items(alloc, lines, &track)?))
}

/// Reads a track if `there` is true; otherwise reads nothing and returns `None`.
fn read_track_if(
    there: bool,
    alloc: Global,
    lines: &mut LineCursor<'_>,
    track: TrackName,
) -> Result<Option<Cells>, CertFault>
    ensures { Takes (part_if there (track_part track)) lines.old lines.new result }
{
    if !there {
        return Ok(None);
    }
    Ok(Some(read_track(alloc, lines, track)?))
}

/// Reads the track of slack waters if its heading is the next line; otherwise reads nothing and
/// returns `None`.
fn read_slack(alloc: Global, lines: &mut LineCursor<'_>) -> Result<Option<Cells>, CertFault>
    ensures { Takes (part_after (heading_of TrackName.Slack) (track_part TrackName.Slack)) lines.old lines.new result }
{
    let track = TrackName::Slack;
    read_track_if(lines.is_next(track.heading()), alloc, lines, track)
}

/// Reads the track of the mark's crossings if there is a mark; otherwise reads nothing and returns
/// `None`.
fn read_crossings(
    alloc: Global,
    lines: &mut LineCursor<'_>,
    mark: Option<i64>,
) -> Result<Option<Cells>, CertFault>
    ensures { Takes (part_if (is_some mark) (track_part TrackName.Mark)) lines.old lines.new result }
{
    read_track_if(mark.is_some(), alloc, lines, TrackName::Mark)
}

/// Reads the last line of a certificate, `done`, and checks that no byte is unread.
///
/// # Errors
/// [`CertFault::NotACertificate`] with the number of the line, counted from 1, if it isn't `done`
/// or is missing, or with the number after it if a byte is unread.
pub fn read_last(lines: &mut LineCursor<'_>) -> Result<(), CertFault>
    ensures { TakesExactly last_part lines.old lines.new result }
{
    word(lines, "done")?;
    lines.finish()
}

/// Reads the tracks and the last line of a certificate. The track of the mark's crossings is read
/// exactly if there is a mark.
fn read_tracks(
    alloc: Global,
    lines: &mut LineCursor<'_>,
    mark: Option<i64>,
) -> Result<Tracks, CertFault>
    ensures { Takes (tracks_part mark) lines.old lines.new result }
{
    let turn = read_track(alloc, lines, TrackName::Turn)?;
    let slack = read_slack(alloc, lines)?;
    let crossings = read_crossings(alloc, lines, mark)?;
    read_last(lines)?;
    Ok(Tracks {
        turn,
        slack,
        mark: crossings,
    })
}

/// Reads a whole certificate, up to the end of the text.
fn read_lines(alloc: Global, lines: &mut LineCursor<'_>) -> Result<Certificate, CertFault>
    ensures { Takes certificate_part lines.old lines.new result }
{
    let version = version(lines)?;
    let station = station(lines)?;
    let begin = moment(lines, "begin ")?;
    let end = moment(lines, "end ")?;
    let mark = mark(lines)?;
    let tracks = read_tracks(alloc, lines, mark)?;
    Ok(Certificate {
        version,
        station: Text::from_str(alloc, station)?,
        begin,
        end,
        mark,
        tracks,
    })
}

/// Returns the certificate with the text `bytes`, of at most 400,000,000 bytes. The time is linear
/// in the number of bytes.
///
/// # Errors
/// [`CertFault::NotACertificate`] if `bytes` aren't the text of a certificate. Its line is the
/// first, counted from 1, such that no certificate begins with the lines up to and including it.
/// Bytes after the last LF aren't a line; if the bytes end too early, the line is one past the
/// last. [`CertFault::NoMemory`] if memory runs out, in place of any other result.
///
/// # Examples
/// ```
/// let cert = read_certificate(alloc, CERTIFICATE.as_bytes())?;
/// assert_eq!(rt; cert.station.as_str(), "Pier");
/// assert_eq!(rt; cert.tracks.turn.as_slice().len(), 4);
/// ```
pub fn read_certificate(alloc: Global, bytes: &[u8]) -> Result<Certificate, CertFault>
    requires { length bytes.now ≤ MOST_BYTES }
    ensures exact { EqualsUnlessNoMemory is_out_of_memory (certificate_of bytes.now) result }
    ensures reads { Reads bytes.now result }
    ensures valid { IfOk result IsCertificate }
{
    read_lines(alloc, &mut LineCursor::new(bytes))
}
