//! Bounds on the error of a slope.

use crate::asserts::assert_holds;
use crate::sines::is_speed;
use crate::stations::curve_of;
use slope_agreement::*;
use std::alloc::Global;

/// A file with one constituent that has a greater node factor in the second of two years.
const GROWING: &[u8] = b"1\nS2 30\n1999\n2\nS2\n0 0\n*END*\n2\nS2\n1 1.2\n*END*\n\
    Pier\n0:00 :UTC\n0 feet\nS2 1 0\n";

/// The same file with an amplitude of 0.
const FLAT: &[u8] = b"1\nS2 30\n1999\n2\nS2\n0 0\n*END*\n2\nS2\n1 1.2\n*END*\n\
    Pier\n0:00 :UTC\n5 feet\nS2 0 0\n";

/// A speed and its gap.
const GAPS: &[(i64, i128)] = &[
    (0, 68_754_935_416),
    (300_000_000, 2_648_169_054_935_416),
    (3_600_000_000, 377_366_472_354_935_416),
];

#[test]
fn gaps_of_speeds(rt: HostRuntime) {
    for &(speed, most) in GAPS {
        assert_holds(&rt, is_speed(speed) && unit_gap(speed) == most, speed);
    }
}

fn has_bound(alloc: Global, file: &[u8], bound: i128) -> bool {
    match curve_of(alloc, file) {
        Ok(curve) => agreement(&curve) == bound,
        Err(_) => false,
    }
}

#[test]
fn bounds_of_stations(rt: HostRuntime) {
    let growing = 13_178_984_045_553_788_682_240_000_000_000;
    assert!(rt; has_bound(rt.alloc(), GROWING, growing));
    assert!(rt; has_bound(rt.alloc(), FLAT, 0));
}

#[test]
fn laws_and_rows_stand(_rt: HostRuntime) {
    table_checks();
    predicted_agreements();
    worked_unit_gaps();
    worked_agreements();
    worked_gaps();
}
