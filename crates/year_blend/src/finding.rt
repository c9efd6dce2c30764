//! The position of a minute among the years of a file.

ghost use Rattle.std.specs.Prelude.{◌≡◌, ◌<◌, ◌≤◌, ◌↔◌, IsTrue, pos, negsuc, ◌+ℤ◌, ◌-ℤ◌, ◌≤ℤ◌, ◌<ℤ◌, unsigned_abs};
ghost use Rattle.jiff_core.specs.Calendar.{IsBetween, IsYear};
ghost use Rattle.year_blend.specs.Years.{year_start_of};
ghost use Rattle.year_blend.specs.Places.{AreYears, InDomain, IsPlaceOf, start_of, year_at, place_of, plain_end_of};

use crate::parts::Place;
use crate::years::{DAY, year_of_day, year_start};

/// Half the minutes of a blend.
const HOUR: i64 = 60;

/// Returns the position of minute `m` among `years` calendar years from `first_year` on: `Blend`, if
/// `m` is less than an hour before or after the start of a year other than the first, and otherwise
/// `Plain`, with the year that contains `m`. `first_year` is from 2 to 8800 and `years` from 1 to 500.
/// `m`, counted from 1970-01-01T00:00Z, is from the first minute of the first year to the first minute
/// after the last year, both included; this minute belongs to the last year.
pub fn place(first_year: i32, years: u32, m: i64) -> Place
    requires years { AreYears first_year years }
    requires domain { InDomain first_year years m }
    ensures value { result ≡ place_of first_year years m }
    ensures rule { IsPlaceOf first_year years m result }
{
    let year = year_among(first_year, years, m);
    let nearest = if m.rem_euclid(DAY) < DAY / 2 {
        year
    } else {
        year + 1
    };
    let x = minutes_from(first_year, nearest, m);
    if is_blend(years, nearest, x) {
        Place::Blend { year: nearest, x }
    } else {
        Place::Plain { year }
    }
}

/// Returns the last minute of the year with index `year` (0 for `first_year`) that isn't in the blend
/// at the next new year: 60 minutes before the next year starts or, for the last of the `years` years,
/// the first minute after it. Minutes are counted from 1970-01-01T00:00Z.
pub fn plain_end(first_year: i32, years: u32, year: u32) -> i64
    requires years { AreYears first_year years }
    requires year { year < years }
    ensures { result ≡ plain_end_of first_year years year }
{
    let next = year + 1;
    let end = year_start(first_year + next as i32);
    if next < years { end - HOUR } else { end }
}

/// Returns the number of minutes from the start of year `year`, counted from 0, to minute `m`; negative
/// if `m` is earlier.
fn minutes_from(first_year: i32, year: u32, m: i64) -> i64
    requires first_year { IsBetween (pos 2) (pos 8800) first_year }
    requires year { year ≤ 500 }
    requires minute { unsigned_abs m ≤ 4000000000 }
    ensures { result ≡ m -ℤ start_of first_year year }
{
    m - year_start(first_year + year as i32)
}

/// Returns true if year `year`, counted from 0, is one of `years` years but not the first, and `x`
/// minutes after its start (before it, if `x` is negative) is less than an hour from that start.
fn is_blend(years: u32, year: u32, x: i64) -> bool
    ensures { IsTrue result ↔ ((0 < year) × (year < years) × (negsuc 59 <ℤ x) × (x <ℤ pos 60)) }
{
    0 < year && year < years && -HOUR < x && x < HOUR
}

/// Returns the last of `years` years from `first_year` on that has begun at minute `m`, counted from 0.
fn year_among(first_year: i32, years: u32, m: i64) -> u32
    requires years { AreYears first_year years }
    requires domain { InDomain first_year years m }
    ensures value { result ≡ year_at first_year years m }
    ensures among { result < years }
{
    let year = (year_of_minute(m) - first_year) as u32;
    year.min(years - 1)
}

/// Returns the calendar year of minute `m`, since 1970-01-01T00:00Z.
fn year_of_minute(m: i64) -> i32
    requires { unsigned_abs m ≤ 4000000000 }
    ensures begun { year_start_of result ≤ℤ m }
    ensures ongoing { m <ℤ year_start_of (result +ℤ pos 1) }
    ensures year { IsYear result }
{
    year_of_day(m.div_euclid(DAY))
}
