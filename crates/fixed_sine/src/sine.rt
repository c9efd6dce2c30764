//! Sine and cosine of an angle on the circle.

ghost use Rattle.std.specs.Prelude.{◌≡◌, ◌+◌, ◌-◌, ◌*◌, ◌/◌, ◌≤◌, ◌<◌, pos, unsigned_abs};
ghost use Rattle.fixed_sine.specs.Circle.{circle, degree, IsOnCircle};
ghost use Rattle.fixed_sine.specs.Sine.{quarter_of, half_of, isin_of, icos_of};

use crate::circle::{CIRCLE, DEGREE};
use crate::table::{SineRow, row_of};

/// The number of units of 1/600,000,000 degree in a degree, as an unsigned number.
pub const UNITS: u64 = DEGREE as u64;

/// The number of units in 180 degrees.
const HALF: u64 = 180 * UNITS;

/// The divisor of the interpolation formula between two degrees.
const SQUARE: u128 = 4 * UNITS as u128 * UNITS as u128;

/// Returns the sine of the angle `p`, in billionths, from -1,000,000,000 to 1,000,000,000. `p` is in
/// units of 1/600,000,000 degree, from 0 up to but not including `CIRCLE`.
///
/// # Examples
/// ```
/// assert_eq!(rt; isin(30 * DEGREE), 500_000_000);
/// assert_eq!(rt; icos(reduce(-180 * i128::from(DEGREE))), -1_000_000_000);
/// ```
pub fn isin(p: i64) -> i64
    requires { IsOnCircle p }
    ensures value { result ≡ isin_of (unsigned_abs p) }
    ensures size { unsigned_abs result ≤ 1000000000 }
{
    let place = p as u64;
    if place < HALF {
        half(place)
    } else {
        -half(place - HALF)
    }
}

/// Returns the cosine of the angle `p`, in billionths, from -1,000,000,000 to 1,000,000,000. `p` is in
/// units of 1/600,000,000 degree, from 0 up to but not including `CIRCLE`.
///
/// The program doesn't call this function: it evaluates the sine of the angle plus a quarter of the
/// circle.
pub fn icos(p: i64) -> i64
    requires { IsOnCircle p }
    ensures value { result ≡ icos_of (unsigned_abs p) }
    ensures size { unsigned_abs result ≤ 1000000000 }
{
    let ahead = p + CIRCLE / 4;
    isin(if ahead < CIRCLE {
        ahead
    } else {
        ahead - CIRCLE
    })
}

/// Returns the sine, in billionths, of the angle `place` on the first half of the circle, in units of
/// 1/600,000,000 degree: the second quarter mirrors the first.
fn half(place: u64) -> i64
    requires { place < circle / 2 }
    ensures value { result ≡ half_of place }
    ensures size { unsigned_abs result ≤ 1000000000 }
{
    quarter(place.min(HALF - place)) as i64
}

/// Returns the sine, in billionths, of the angle `place` on the first quarter of the circle, both ends
/// included, in units of 1/600,000,000 degree.
fn quarter(place: u64) -> u64
    requires { place ≤ circle / 4 }
    ensures value { pos result ≡ quarter_of place }
    ensures size { result ≤ 1000000000 }
{
    let degrees = place / UNITS;
    if degrees < 90 {
        between(row_of(degrees as usize), place % UNITS)
    } else {
        1_000_000_000
    }
}

/// Returns the sine, in billionths, `r` units of 1/600,000,000 degree after the whole degree of `row`.
fn between(row: SineRow, r: u64) -> u64
    requires { r < degree }
    ensures { result
        ≡ row.sine + (4 * degree * r * row.rise + r * (degree - r) * row.correction) / (4 * degree * degree) }
{
    let slope = 4 * UNITS * u64::from(row.rise) + (UNITS - r) * u64::from(row.correction);
    u64::from(row.sine) + (u128::from(r) * u128::from(slope) / SQUARE) as u64
}
