//! Starts of years, and minutes near a new year.

ghost use Rattle.std.specs.Prelude.{pos, IsTrue};
ghost use Rattle.year_blend.specs.Places.{InDomain};
ghost use Rattle.year_blend.specs.Years.{IsYearInReach};
ghost use Rattle.year_blend.specs.Weights.{IsWithinHourOfNewYear};

use crate::asserts::assert_holds;
use year_blend::*;

/// A year and its first minute.
const STARTS: &[(i32, i64)] = &[
    (2, -1_035_067_680),
    (1900, -36_816_480),
    (1970, 0),
    (2000, 15_778_080),
    (2001, 16_305_120),
    (2100, 68_374_080),
    (9300, 3_855_208_320),
];

fn is_in_reach(year: i32) -> bool
    ensures { IsTrue result → IsYearInReach year }
{
    (2..=9300).contains(&year)
}

#[test]
fn starts_of_years(rt: HostRuntime) {
    for &(year, want) in STARTS {
        assert_holds(&rt, is_in_reach(year) && year_start(year) == want, year);
    }
}

/// A minute and its place in the three years from 1999.
const PLACES: &[(i64, Place)] = &[
    (15_252_480, Place::Plain { year: 0 }),
    (15_252_539, Place::Plain { year: 0 }),
    (15_778_020, Place::Plain { year: 0 }),
    (15_778_021, Place::Blend { year: 1, x: -59 }),
    (15_778_080, Place::Blend { year: 1, x: 0 }),
    (15_778_139, Place::Blend { year: 1, x: 59 }),
    (15_778_140, Place::Plain { year: 1 }),
    (16_305_119, Place::Blend { year: 2, x: -1 }),
    (16_830_661, Place::Plain { year: 2 }),
    (16_830_720, Place::Plain { year: 2 }),
];

/// Returns true if a minute is in the three years from 1999.
fn is_in_years(minute: i64) -> bool
    ensures { IsTrue result → InDomain (pos 1999) 3 minute }
{
    year_start(1999) <= minute && minute <= year_start(2002)
}

#[test]
fn places_of_minutes(rt: HostRuntime) {
    for &(minute, want) in PLACES {
        let is_right = is_in_years(minute) && place(1999, 3, minute) == want;
        assert_holds(&rt, is_right, minute);
    }
}

/// A first minute, a number of minutes, and the part of the years in which they are.
const STRETCHES: &[(i64, u32, Stretch)] = &[
    (15_776_996, 1024, Stretch::Within { year: 0 }),
    (15_776_997, 1024, Stretch::Across { year: 1 }),
    (15_778_020, 0, Stretch::Within { year: 0 }),
    (15_778_020, 1, Stretch::Across { year: 1 }),
    (15_778_139, 1, Stretch::Across { year: 1 }),
    (15_778_140, 1024, Stretch::Within { year: 1 }),
    (16_305_059, 121, Stretch::Across { year: 2 }),
    (16_829_696, 1024, Stretch::Within { year: 2 }),
];

fn is_stretch(minute: i64, n: u32, want: Stretch) -> bool {
    let (first, last) = (year_start(1999), year_start(2002));
    let Some(end) = minute.checked_add(i64::from(n)) else {
        return false;
    };
    if minute < first || last < end || LONGEST_SPAN < n {
        return false;
    }
    stretch(1999, 3, minute, n) == want
}

#[test]
fn stretches_of_minutes(rt: HostRuntime) {
    for &(minute, n, want) in STRETCHES {
        assert_holds(&rt, is_stretch(minute, n, want), minute);
    }
}

/// A year and the end of its part that isn't blended.
const ENDS: &[(u32, i64)] = &[(0, 15_778_020), (1, 16_305_060), (2, 16_830_720)];

#[test]
fn ends_of_plain_parts(rt: HostRuntime) {
    for &(year, want) in ENDS {
        let is_right = year < 3 && plain_end(1999, 3, year) == want;
        assert_holds(&rt, is_right, year);
    }
}

/// A minute from the new year, its weight and its slope.
const WEIGHTS: &[(i64, i64, i64)] = &[
    (-60, 0, 0),
    (-59, 23_701, 70_805),
    (0, 2_073_600_000, 64_800_000),
    (30, 3_717_900_000, 36_450_000),
    (60, 4_147_200_000, 0),
];

fn is_near(x: i64) -> bool
    ensures { IsTrue result → IsWithinHourOfNewYear x }
{
    (-60..=60).contains(&x)
}

fn has_weight(x: i64, want: i64, slope: i64) -> bool {
    is_near(x) && weight(x) == want && weight_slope(x) == slope
}

#[test]
fn weights_of_minutes(rt: HostRuntime) {
    for &(x, want, slope) in WEIGHTS {
        assert_holds(&rt, has_weight(x, want, slope), x);
    }
}
