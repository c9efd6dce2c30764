//! Sines, cosines and places on the circle.

ghost use Rattle.std.specs.Prelude.{IsTrue};
ghost use Rattle.fixed_sine.specs.Circle.{IsOnCircle};
ghost use Rattle.fixed_sine.specs.Rate.{IsSpeed};

use crate::asserts::assert_holds;
use fixed_sine::*;

/// A place on the circle, its sine and its cosine.
type Sines = (i64, i64, i64);

const SINES: &[Sines] = &[
    (0, 0, 1_000_000_000),
    (300_000_000, 8_726_535, 999_961_920),
    (8_700_000_000, 250_380_003, 968_147_637),
    (18_000_000_000, 500_000_000, 866_025_404),
    (18_300_000_000, 507_538_361, 861_629_158),
    (27_000_000_001, 707_106_781, 707_106_780),
    (53_700_000_000, 999_961_920, 8_726_535),
    (54_000_000_000, 1_000_000_000, 0),
    (80_999_999_999, 707_106_781, -707_106_780),
    (81_000_000_000, 707_106_781, -707_106_781),
    (108_300_000_000, -8_726_535, -999_961_920),
    (123_456_789_012, -434_623_084, -900_612_442),
    (162_000_000_000, -1_000_000_000, 0),
    (187_654_321_098, -734_237_208, 678_893_009),
    (215_999_999_999, 0, 999_999_999),
];

fn is_on_circle(place: i64) -> bool
    ensures { IsTrue result → IsOnCircle place }
{
    (0..CIRCLE).contains(&place)
}

/// Returns true if a place is on the circle, and has this sine and this cosine.
fn has_sines(place: i64, sine: i64, cosine: i64) -> bool {
    is_on_circle(place) && isin(place) == sine && icos(place) == cosine
}

#[test]
fn sines_and_cosines(rt: HostRuntime) {
    for &(place, sine, cosine) in SINES {
        assert_holds(&rt, has_sines(place, sine, cosine), place);
    }
}

/// A speed and its step.
const STEPS: &[(i64, i64)] = &[
    (0, 1),
    (300_000_000, 8_727_001),
    (3_600_000_000, 104_724_001),
];

pub fn is_speed(speed: i64) -> bool
    ensures { IsTrue result → IsSpeed speed }
{
    (0..=3_600_000_000).contains(&speed)
}

#[test]
fn steps_of_speeds(rt: HostRuntime) {
    for &(speed, most) in STEPS {
        assert_holds(&rt, is_speed(speed) && step(speed) == most, speed);
    }
}

/// An angle and its place on the circle, both in units of which 216,000,000,000 are the circle.
const PLACES: &[(i128, i64)] = &[
    (-1, 215_999_999_999),
    (0, 0),
    (216_000_000_000, 0),
    (-217_000_000_001, 214_999_999_999),
    (999_999_999_999_999_999_999_999, 135_999_999_999),
];

#[test]
fn places_of_angles(rt: HostRuntime) {
    for &(angle, place) in PLACES {
        assert_holds(&rt, reduce(angle) == place, angle);
    }
}

const BINARY_SINES: &[Sines] = &[
    (0, 0, 1_000_000_000),
    (8_700_000_000, 250_380_003, 968_147_637),
    (27_000_000_001, 707_106_781, 707_106_780),
    (53_999_999_999, 999_999_999, 0),
    (54_000_000_000, 1_000_000_000, 0),
    (54_000_000_001, 999_999_999, 0),
    (80_999_999_999, 707_106_781, -707_106_780),
    (90_000_000_000, 500_000_000, -866_025_404),
    (107_999_999_999, 0, -999_999_999),
    (108_300_000_000, -8_726_535, -999_961_920),
    (123_456_789_012, -434_623_084, -900_612_442),
    (162_000_000_000, -1_000_000_000, 0),
    (187_654_321_098, -734_237_208, 678_893_009),
    (215_999_999_999, 0, 999_999_999),
];

/// Returns the binary angle of a place on the circle, and the binary angle a quarter of the circle ahead.
fn binary_angles(place: i64) -> (u64, u64) {
    if !is_on_circle(place) {
        return (0, 0);
    }
    let angle = binary_angle_of(place as u64);
    (angle, angle.wrapping_add(QUARTER_CIRCLE))
}

fn has_binary_sines(place: i64, sine: i64, cosine: i64) -> bool {
    let (angle, utc_offset) = binary_angles(place);
    is_on_circle(place)
        && binary_angle_sine(angle) == sine
        && binary_angle_sine(utc_offset) == cosine
}

#[test]
fn sines_and_cosines_of_binary_angles(rt: HostRuntime) {
    for &(place, sine, cosine) in BINARY_SINES {
        assert_holds(&rt, has_binary_sines(place, sine, cosine), place);
    }
}

/// The approximate sines are the sines in the middle of each of 8,192 parts of the circle, in units of
/// 2^15 billionths.
const APPROXIMATE_SINES: &[Sines] = &[
    (0, 12, 30_518),
    (300_000_000, 269, 30_516),
    (8_700_000_000, 7_631, 29_548),
    (18_000_000_000, 15_255, 26_431),
    (54_000_000_000, 30_518, -12),
    (107_700_000_000, 269, -30_516),
    (108_300_000_000, -269, -30_516),
    (162_000_000_000, -30_518, 12),
    (215_700_000_000, -269, 30_516),
];

fn has_approximate_sines(place: i64, sine: i64, cosine: i64) -> bool {
    let (angle, utc_offset) = binary_angles(place);
    is_on_circle(place) && approximate_sine(angle) == sine && approximate_sine(utc_offset) == cosine
}

#[test]
fn approximate_sines_and_cosines(rt: HostRuntime) {
    for &(place, sine, cosine) in APPROXIMATE_SINES {
        assert_holds(&rt, has_approximate_sines(place, sine, cosine), place);
    }
}
