//! A certificate that is written while its cells are found. None of these functions allocates.

ghost use Rattle.std.specs.Prelude.{◌≡◌, ◌<◌, ◌≤◌, ◌^◌, ◌++◌, length, IfOk};
ghost use Rattle.cert_text.specs.Certificates.{IsStationName};
ghost use Rattle.cert_text.specs.Lines.{begin_line_of, end_line_of, mark_line_of, certificate_text, ended};
ghost use Rattle.station_span.specs.declared.purpose.Purpose.{Purpose};
ghost use Rattle.station_span.specs.CellSending.{SendsCells};
ghost use Rattle.station_span.specs.Following.{cells_of, tracks_of};
ghost use Rattle.station_span.specs.Workings.Finds.{site_of};
ghost use Rattle.station_span.specs.Workings.Spans.{AreMoments};
ghost use Rattle.tide_answer.specs.Answers.{certificate_by};
ghost use Rattle.tide_answer.specs.Workings.Streaming.{head_text, tracks_text, HasCells};
ghost use Rattle.tide_edge.specs.Sending.{Sends};

use crate::name_sending::send_name;
use arrayvec::ArrayString;
use cert_text::{TrackName, begin_line, end_line, mark_line};
use decimal_text::Text;
use station_span::{
    FoundStation, SentCells, mark_search, send_if_followed, send_track, slack_search, turn_search,
};
use tide_edge::{Sink, WriteFailed, send};

/// Writes to `out` the certificate of the events of the station `found_station`, called `name`, over the
/// span of its request, by the rules of version 2, while its cells are found. Returns the numbers of
/// bytes and cells written.
///
/// # Errors
/// [`WriteFailed`] if a write to `out` fails: then `out` has only the first bytes of the certificate.
pub fn send_certificate<S: Sink>(
    out: &mut S,
    found_station: &FoundStation,
    name: &Text,
) -> Result<SentCells, WriteFailed>
    requires purpose { found_station.now.purpose ≡ Purpose.Events }
    requires moments { AreMoments found_station.now.span_request }
    requires name { IsStationName name.now }
    ensures { SendsCells (S.state out.old) (S.state out.new) (record { bytes = 0; cells = 0 })
        (certificate_text (certificate_by found_station.now.curve.book (site_of found_station.now) name.now found_station.now.span_request))
        (cells_of found_station.now.curve.book (site_of found_station.now) found_station.now.span_request) result }
{
    let sent = send_head(out, name, found_station)?;
    let tracks = send_tracks(out, sent, found_station)?;
    let bytes = send(out, tracks.bytes, "done\n")?;
    let cells = tracks.cells;
    Ok(SentCells { bytes, cells })
}

/// Writes the lines of a certificate before its tracks. Returns the number of bytes written.
fn send_head<S: Sink>(
    out: &mut S,
    name: &Text,
    found_station: &FoundStation,
) -> Result<u64, WriteFailed>
    requires name { length name.now ≤ 400 }
    requires moments { AreMoments found_station.now.span_request }
    ensures sends { Sends (S.state out.old) (S.state out.new) 0 (head_text name.now found_station.now.span_request) result }
    ensures length_bound { IfOk result (λ done. done ≤ 1000) }
{
    let sent = send_name(out, 0, "tide certificate 2\nstation ", name)?;
    let lines = span_lines(found_station);
    send(out, sent, lines.as_str())
}

/// Writes the tracks of all curves of the station. `sent` is the number of bytes that were written
/// before. Returns `sent` plus the number of bytes written here, and the number of cells.
fn send_tracks<S: Sink>(
    out: &mut S,
    sent: u64,
    found_station: &FoundStation,
) -> Result<SentCells, WriteFailed>
    requires purpose { found_station.now.purpose ≡ Purpose.Events }
    requires cells { HasCells (tracks_of found_station.now.curve.book (site_of found_station.now) found_station.now.span_request) }
    requires small { sent ≤ 1000 }
    ensures sends { SendsCells (S.state out.old) (S.state out.new) (record { bytes = sent; cells = 0 })
        (tracks_text (tracks_of found_station.now.curve.book (site_of found_station.now) found_station.now.span_request))
        (cells_of found_station.now.curve.book (site_of found_station.now) found_station.now.span_request) result }
    ensures length_bound { IfOk result (λ done. done.bytes < 2 ^ 63) }
{
    let start = SentCells {
        bytes: sent,
        cells: 0,
    };
    let sent = send_track(out, start, TrackName::Turn, turn_search(found_station))?;
    let sent = send_if_followed(out, sent, TrackName::Slack, slack_search(found_station))?;
    send_if_followed(out, sent, TrackName::Mark, mark_search(found_station))
}

/// Returns the lines of the span and of the mark.
fn span_lines(found_station: &FoundStation) -> ArrayString<72>
    requires { AreMoments found_station.now.span_request }
    ensures { result.bytes ≡ ended (begin_line_of found_station.now.span_request.begin) ++ ended (end_line_of found_station.now.span_request.end)
        ++ ended (mark_line_of found_station.now.span_request.mark) }
{
    let mut begin = ArrayString::<24>::new();
    begin_line(found_station.span_request.begin, &mut begin);
    let mut end = ArrayString::<24>::new();
    end_line(found_station.span_request.end, &mut end);
    let mut mark = ArrayString::<24>::new();
    mark_line(found_station.span_request.mark, &mut mark);
    let mut lines = ArrayString::new();
    lines.push_str(begin.as_str());
    lines.push_str(end.as_str());
    lines.push_str(mark.as_str());
    lines
}
