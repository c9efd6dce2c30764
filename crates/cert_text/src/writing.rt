//! Writing certificates as text.

ghost use Rattle.std.specs.Prelude.{◌≡◌, ◌++◌, [], ◌∷◌, All, IfOk, IfSome, OnOk};
ghost use Rattle.cert_text.specs.Certificates.{IsCertificate, IsCellOf};
ghost use Rattle.zone_time.specs.Moments.{IsMoment};
ghost use Rattle.cert_text.specs.Lines.{
  station_line_of,
  station_lines_of,
  head_lines_of,
  track_lines_of,
  lines_if_there,
  certificate_text,
  ended,
  joined,
};

use crate::certificate::Certificate;
use crate::line_writing::{
    begin_line, cell_line, end_line, heading_line, last_line, mark_line, title_line,
};
use crate::track_name::TrackName;
use arrayvec::ArrayString;
use curve_law::{Cell, Cells};
use decimal_text::{Bytes, Text};
use std::alloc::{AllocError, Global};

/// Appends the bytes of `text` to `out`.
///
/// # Errors
/// [`AllocError`] if memory runs out.
pub fn push_text(out: &mut Vec<u8>, text: &str) -> Result<(), AllocError>
    ensures { OnOk result (out.new.items ≡ out.old.items ++ text.now) }
{
    out.extend_from_slice(text.as_bytes())
}

/// Appends the line of the station `name`, such as `station Pier`, with its LF.
#[tactic(auto, unfolding(crate::specs::Lines::station_line_of))]
fn push_station(out: &mut Vec<u8>, name: &Text) -> Result<(), AllocError>
    ensures { OnOk result (out.new.items ≡ out.old.items ++ ended (station_line_of name.now)) }
{
    push_text(out, "station ")?;
    push_text(out, name.as_str())?;
    push_text(out, "\n")
}

/// Appends three lines to `out`: the station's name `name`, the first minute of the span, `begin`,
/// and the minute after its last, `end`. Both minutes count from 1970-01-01T00:00Z and are in the
/// years 1 to 9999.
///
/// # Errors
/// [`AllocError`] if memory runs out.
pub fn push_station_lines(
    out: &mut Vec<u8>,
    name: &Text,
    begin: i64,
    end: i64,
) -> Result<(), AllocError>
    requires begin { IsMoment begin }
    requires end { IsMoment end }
    ensures { OnOk result (out.new.items ≡ out.old.items ++ joined (station_lines_of name.now begin end)) }
{
    push_station(out, name)?;
    let mut line = ArrayString::new();
    begin_line(begin, &mut line);
    push_text(out, line.as_str())?;
    line.clear();
    end_line(end, &mut line);
    push_text(out, line.as_str())
}

/// Appends the first five lines of `cert`: title, station, first minute and end of the span, and
/// mark.
fn push_head(out: &mut Vec<u8>, cert: &Certificate) -> Result<(), AllocError>
    requires { IsCertificate cert.now }
    ensures { OnOk result (out.new.items ≡ out.old.items ++ joined (head_lines_of cert.now)) }
{
    let mut line = ArrayString::new();
    title_line(cert.version, &mut line);
    push_text(out, line.as_str())?;
    push_station_lines(out, &cert.station, cert.begin, cert.end)?;
    line.clear();
    mark_line(cert.mark, &mut line);
    push_text(out, line.as_str())
}

/// Appends the heading of `track` and a line for each of `cells`.
fn push_track(out: &mut Vec<u8>, track: TrackName, cells: &[Cell]) -> Result<(), AllocError>
    requires { All (IsCellOf track) cells.now }
    ensures { OnOk result (out.new.items ≡ out.old.items ++ joined (track_lines_of track cells.now)) }
{
    let mut line = ArrayString::new();
    heading_line(track, &mut line);
    push_text(out, line.as_str())?;
    for cell in cells {
        line.clear();
        cell_line(cell, &mut line);
        push_text(out, line.as_str())?;
    }
    Ok(())
}

/// Appends the heading of `track` and a line for each of `cells` if the track is present.
fn push_track_if_there(
    out: &mut Vec<u8>,
    track: TrackName,
    cells: &Option<Cells>,
) -> Result<(), AllocError>
    requires { IfSome cells.now (All (IsCellOf track)) }
    ensures { OnOk result (out.new.items ≡ out.old.items ++ joined (lines_if_there track cells.now)) }
{
    match cells {
        None => Ok(()),
        Some(cells) => push_track(out, track, cells.as_slice()),
    }
}

/// Returns the text of `cert`, of which the fields must be in the ranges that [`Certificate`]
/// lists.
///
/// # Errors
/// [`AllocError`] if memory runs out.
///
/// # Examples
/// ```
/// let cert = read_certificate(alloc, CERTIFICATE.as_bytes())?;
/// let written = write_certificate(alloc, &cert)?;
/// assert_eq!(rt; written.as_slice(), CERTIFICATE.as_bytes());
/// ```
#[tactic(auto, unfolding(crate::specs::Lines::certificate_text))]
pub fn write_certificate(alloc: Global, cert: &Certificate) -> Result<Bytes, AllocError>
    requires { IsCertificate cert.now }
    ensures { IfOk result (λ text. text ≡ certificate_text cert.now) }
{
    let mut out = Vec::new(alloc);
    push_head(&mut out, cert)?;
    push_track(&mut out, TrackName::Turn, cert.tracks.turn.as_slice())?;
    push_track_if_there(&mut out, TrackName::Slack, &cert.tracks.slack)?;
    push_track_if_there(&mut out, TrackName::Mark, &cert.tracks.mark)?;
    let mut line = ArrayString::new();
    last_line(&mut line);
    push_text(&mut out, line.as_str())?;
    Ok(Bytes::from_vec(out))
}
