//! Texts of certificates of a highest water.

ghost use Rattle.peak_text.specs.PeakTexts.{IsPeakCertificate};

use crate::asserts::assert_holds;
use decimal_text::MOST_BYTES;
use highest_water::PeakCell;
use peak_text::{
    PeakCertificate, PeakFault, peak_certificates_have_one_text, peak_readings_go_by_the_grammar,
    peak_texts_are_short, read_peak, worked_peak_readings, worked_peak_texts, write_peak,
};
use std::alloc::Global;
use std::process::Abort;

const PIER: &str =
    "peak certificate 1\nstation Pier\nbegin 2000-01-10T00:00Z\nend 2000-01-10T01:04Z\nat 2000-01-10T00:00Z\n\
    value 4147200000000000000000000000000\nm\nm\nm\nm\nm\nm\nm\nm\nm\nm\nm\nm\nm\nm\nm\nm\nu 2\nu 2\nu 4\nu 4\nu 4\n\
    u 8\nu 8\nu 16\ndone\n";

/// Returns true if the certificate of `text` is written as `text`.
fn is_rewritten(alloc: Global, text: &[u8]) -> bool {
    if text.len() > MOST_BYTES {
        return false;
    }
    match read_peak(alloc, text) {
        Ok(cert) => is_written(alloc, &cert, text),
        Err(_) => false,
    }
}

/// Returns true if `cert` is written as `text`.
fn is_written(alloc: Global, cert: &PeakCertificate, text: &[u8]) -> bool
    requires { IsPeakCertificate cert.now }
{
    match write_peak(alloc, cert) {
        Ok(written) => written.as_slice() == text,
        Err(_) => false,
    }
}

/// Certificates with a value of 0, with the least value, and with the longest cell.
const OTHERS: &[&str] = &[
    "peak certificate 1\nstation Pier\nbegin 2000-01-10T00:00Z\nend 2000-01-10T00:01Z\nat 2000-01-10T00:00Z\n\
    value 0\nm\ndone\n",
    "peak certificate 1\nstation Pier\nbegin 2000-01-10T00:00Z\nend 2000-01-10T00:01Z\nat 2000-01-10T00:00Z\n\
    value -9999999999999999999999999999999999999\nm\ndone\n",
    "peak certificate 1\nstation Pier\nbegin 2000-01-10T00:00Z\nend 2000-01-10T17:04Z\nat 2000-01-10T00:00Z\n\
    value 1\nu 1024\ndone\n",
];

#[test]
fn what_is_read_is_written(rt: HostRuntime) {
    assert_holds(&rt, is_rewritten(rt.alloc(), PIER.as_bytes()), "pier");
    for text in OTHERS {
        assert_holds(&rt, is_rewritten(rt.alloc(), text.as_bytes()), *text);
    }
}

#[test]
fn a_certificate_has_its_values(rt: HostRuntime) -> Result<(), PeakFault> {
    let cert = read_peak(rt.alloc(), PIER.as_bytes())?;
    check_values(&rt, &cert);
    Ok(())
}

fn check_values(rt: &impl Abort, cert: &PeakCertificate) {
    let value = 4_147_200_000_000_000_000_000_000_000_000;
    assert_holds(rt, cert.station.as_str() == "Pier", "station");
    assert_holds(
        rt,
        (cert.begin, cert.end) == (15_791_040, 15_791_104),
        "span",
    );
    assert_holds(rt, cert.peak.at == 15_791_040, "minute");
    assert_holds(rt, cert.peak.value == value, "value");
    assert_holds(rt, are_the_cells(cert.peak.cells.as_slice()), "cells");
}

fn are_the_cells(cells: &[PeakCell]) -> bool {
    cells.len() == 24 && cells[0] == PeakCell::Single && cells[23] == PeakCell::Under(16)
}

#[test]
fn laws_and_rows_of_texts_stand(_rt: HostRuntime) {
    peak_certificates_have_one_text();
    peak_texts_are_short();
    peak_readings_go_by_the_grammar();
    worked_peak_texts();
    worked_peak_readings();
}
