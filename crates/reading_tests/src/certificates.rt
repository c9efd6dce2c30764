//! Texts of certificates, and their lines.

ghost use Rattle.std.specs.Prelude.{◌≡◌, []};
ghost use Rattle.cert_text.specs.Certificates.{IsCertificate};

use crate::asserts::assert_holds;
use arrayvec::ArrayString;
use cert_text::{
    Certificate, begin_line, cell_line, certificates_are_short, certificates_have_one_text,
    end_line, heading_line, last_line, mark_line, read_certificate, readings_go_by_the_grammar,
    texts_come_in_parts, title_line, track_of, worked_readings, worked_texts, write_certificate,
};
use curve_law::{Cell, Kind};
use decimal_text::MOST_BYTES;
use std::alloc::Global;

const PIER: &str =
    "tide certificate 1\nstation Pier\nbegin 2000-01-10T00:00Z\nend 2000-01-10T00:08Z\nmark none\ntrack turn\ns\ns\nq 2\nq 4\ndone\n";

const NARROWS: &str =
    "tide certificate 2\nstation Pi\u{e9}r\nbegin 2000-01-10T05:59Z\nend 2000-01-10T06:01Z\nmark -500000\ntrack turn\n\
    s\nt low -1000000\ntrack slack\nt flood 0\nt ebb 99999999999999\nq 1024\ntrack mark\nt rise -99999999999999\n\
    t fall 7\ns\ndone\n";

/// Returns true if the certificate of `text` is written as `text`.
fn is_rewritten(alloc: Global, text: &[u8]) -> bool {
    if text.len() > MOST_BYTES {
        return false;
    }
    match read_certificate(alloc, text) {
        Ok(cert) => is_written(alloc, &cert, text),
        Err(_) => false,
    }
}

/// Returns true if `cert` is written as `text`.
fn is_written(alloc: Global, cert: &Certificate, text: &[u8]) -> bool
    requires { IsCertificate cert.now }
{
    match write_certificate(alloc, cert) {
        Ok(written) => written.as_slice() == text,
        Err(_) => false,
    }
}

#[test]
fn what_is_read_is_written(rt: HostRuntime) {
    assert!(rt; is_rewritten(rt.alloc(), PIER.as_bytes()));
    assert!(rt; is_rewritten(rt.alloc(), NARROWS.as_bytes()));
}

/// A cell, and its line.
static CELLS: &[(Cell, &str)] = &[
    (Cell::Quiet(2), "q 2\n"),
    (Cell::Quiet(1024), "q 1024\n"),
    (Cell::Still, "s\n"),
    (Cell::Turn(Kind::High, 0), "t high 0\n"),
    (Cell::Turn(Kind::Low, -1_000_000), "t low -1000000\n"),
    (
        Cell::Turn(Kind::FloodBegins, -99_999_999_999_999),
        "t flood -99999999999999\n",
    ),
    (Cell::Turn(Kind::MarkFalling, 7), "t fall 7\n"),
];

#[test]
fn cells_are_written(rt: HostRuntime) {
    for (cell, text) in CELLS {
        let mut out = ArrayString::new();
        if has_line(cell) {
            cell_line(cell, &mut out);
        }
        assert_holds(&rt, out.as_str() == *text, *text);
    }
}

fn has_line(cell: &Cell) -> bool {
    match *cell {
        Cell::Quiet(minutes) => 2 <= minutes && minutes <= 1024,
        Cell::Still => true,
        Cell::Turn(_, level) => level.unsigned_abs() <= 99_999_999_999_999,
    }
}

/// A line of a certificate that is no cell.
enum Line {
    Title,
    Begin,
    End,
    Mark,
    Track,
    Last,
}

/// A line, and its text.
static LINES: &[(Line, &str)] = &[
    (Line::Title, "tide certificate 2\n"),
    (Line::Begin, "begin 2000-01-10T00:00Z\n"),
    (Line::End, "end 2000-01-10T00:08Z\n"),
    (Line::Mark, "mark -500000\n"),
    (Line::Track, "track slack\n"),
    (Line::Last, "done\n"),
];

fn write_line(line: &Line, out: &mut ArrayString<24>)
    requires { out.old.bytes ≡ [] }
{
    match line {
        Line::Title => title_line(2, out),
        Line::Begin => begin_line(15791040, out),
        Line::End => end_line(15791048, out),
        Line::Mark => mark_line(Some(-500_000), out),
        Line::Track => heading_line(track_of(Kind::EbbBegins), out),
        Line::Last => last_line(out),
    }
}

#[test]
fn lines_are_written(rt: HostRuntime) {
    for (line, text) in LINES {
        let mut out = ArrayString::new();
        write_line(line, &mut out);
        assert_holds(&rt, out.as_str() == *text, *text);
    }
}

#[test]
fn laws_and_rows_stand(_rt: HostRuntime) {
    certificates_have_one_text();
    texts_come_in_parts();
    certificates_are_short();
    readings_go_by_the_grammar();
    worked_texts();
    worked_readings();
}
