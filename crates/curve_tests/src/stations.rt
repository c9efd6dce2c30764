//! Levels and slopes of a station.

ghost use Rattle.std.specs.Prelude.{◌≡◌, pos, length, IsTrue, IfSome};
ghost use Rattle.harmonics_book.specs.Books.{IsBook};
ghost use Rattle.station_curve.specs.Curves.{IsPredicted};
ghost use Rattle.year_blend.specs.Places.{InDomain};

use crate::asserts::assert_holds;
use harmonics_book::Book;
use harmonics_text::read_book;
use station_curve::*;
use std::alloc::{AllocError, Global};
use std::process::Abort;
use year_blend::{LONGEST_SPAN, Stretch, year_start};

/// Returns a file with one constituent, three years from 1999 and one station.
fn pier_file(
    alloc: Global,
    speed: &str,
    argument: &str,
    amplitude: &str,
    unit: &str,
) -> Result<String, AllocError> {
    [
        "1\nS2 ",
        speed,
        "\n1999\n3\nS2\n0 ",
        argument,
        " ",
        argument,
        "\n*END*\n3\nS2\n1 1 1\n*END*\nPier\n0:00 :UTC\n0 ",
        unit,
        "\nS2 ",
        amplitude,
        " 0\n",
    ]
    .concat(alloc)
}

/// Returns the book of a small file.
fn small_book(alloc: Global, file: &[u8]) -> Option<Book>
    ensures { IfSome result IsBook }
{
    if file.len() <= 1000 {
        read_book(alloc, file).ok()
    } else {
        None
    }
}

fn has_one_station(book: &Book) -> bool
    ensures { IsTrue result → length book.now.stations ≡ 1 }
{
    book.stations.as_slice().len() == 1
}

fn only_curve(alloc: Global, book: &Book) -> Result<StationCurve, CurveFault>
    requires { IsBook book.now }
{
    if has_one_station(book) {
        StationCurve::new(alloc, book, 0)
    } else {
        Err(CurveFault::NoMemory)
    }
}

/// Returns the curve of the station in `file`, a harmonics file with one station.
///
/// # Errors
/// The fault of the curve, if the station has none; [`CurveFault::NoMemory`] also if the file can't be
/// read or doesn't have exactly one station.
pub fn curve_of(alloc: Global, file: &[u8]) -> Result<StationCurve, CurveFault> {
    match small_book(alloc, file) {
        Some(book) => only_curve(alloc, &book),
        None => Err(CurveFault::NoMemory),
    }
}

/// Returns true if the minute is in the years 1999 to 2001, or is the first minute after them.
fn is_in_file(m: i64) -> bool
    ensures { IsTrue result → InDomain (pos 1999) 3 m }
{
    year_start(1999) <= m && m <= year_start(2002)
}

/// Returns true if the book has one station, and the years 1999 to 2001.
fn is_of_pier(book: &Book) -> bool
    ensures station { IsTrue result → length book.now.stations ≡ 1 }
    ensures first_year { IsTrue result → book.now.first_year ≡ pos 1999 }
    ensures years { IsTrue result → book.now.years ≡ 3 }
{
    has_one_station(book) && book.first_year == 1999 && book.years == 3
}

/// Returns the curve of the one station of a book of the years 1999 to 2001, for the minutes from
/// `first` to `last`, both included.
fn minutes_of(alloc: Global, book: &Book, first: i64, last: i64) -> Result<StationCurve, CurveFault>
    requires book { IsBook book.now }
    requires one { length book.now.stations ≡ 1 }
    requires first_year { book.now.first_year ≡ pos 1999 }
    requires years { book.now.years ≡ 3 }
{
    if is_in_file(first) && is_in_file(last) && first <= last {
        StationCurve::over(alloc, book, 0, first, last)
    } else {
        Err(CurveFault::NoMemory)
    }
}

fn pier_minutes(
    alloc: Global,
    book: &Book,
    first: i64,
    last: i64,
) -> Result<StationCurve, CurveFault>
    requires { IsBook book.now }
{
    if is_of_pier(book) {
        minutes_of(alloc, book, first, last)
    } else {
        Err(CurveFault::NoMemory)
    }
}

/// Returns the curve of the one station of a file for the minutes from `first` to `last`, both included.
fn curve_over(
    alloc: Global,
    file: &[u8],
    first: i64,
    last: i64,
) -> Result<StationCurve, CurveFault> {
    match small_book(alloc, file) {
        Some(book) => pier_minutes(alloc, &book, first, last),
        None => Err(CurveFault::NoMemory),
    }
}

/// Returns the curve of a station with one constituent of 30 degrees an hour in the years from 1999 to
/// 2001. `amplitude` is its amplitude in feet, and `argument` its equilibrium argument in degrees, as
/// they are written in a harmonics file.
///
/// # Errors
/// The fault of the curve, if the station has none; [`CurveFault::NoMemory`] also if the file can't be
/// written or read.
pub fn pier(alloc: Global, argument: &str, amplitude: &str) -> Result<StationCurve, CurveFault> {
    match pier_file(alloc, "30", argument, amplitude, "feet") {
        Ok(file) => curve_of(alloc, file.as_bytes()),
        Err(_) => Err(CurveFault::NoMemory),
    }
}

fn is_in_years(curve: &StationCurve, m: i64) -> bool
    ensures { IsTrue result → IsPredicted curve.now m }
{
    curve.first() <= m && m <= curve.last()
}

/// Returns true if this is the level at minute `m`, and if it rises there as is expected.
fn has_level(curve: &StationCurve, m: i64, level: i64, rises: bool) -> bool {
    is_in_years(curve, m) && curve.millionths(m) == level && (curve.slope(m) > 0) == rises
}

/// A minute since 1970-01-01T00:00Z, the level there in millionths of a foot, and true if it rises.
const LEVELS: &[(i64, i64, bool)] = &[
    (15_777_960, 500_000, true),
    (15_778_020, 866_025, true),
    (15_778_047, 940_396, true),
    (15_778_048, 940_281, false),
    (15_778_080, 750_000, false),
    (15_778_140, 0, false),
    (15_778_200, -500_000, false),
];

fn has_three_years(curve: &StationCurve) -> bool {
    curve.first() == year_start(1999)
        && curve.last() == year_start(2002)
        && curve.first_year() == 1999
        && curve.years() == 3
}

fn check_levels(rt: &impl Abort, curve: &StationCurve) {
    for &(m, level, rises) in LEVELS {
        assert_holds(rt, has_level(curve, m, level, rises), m);
    }
    assert_holds(rt, has_three_years(curve), "years");
}

fn is_level_near(curve: &StationCurve, m: i64, level: i128) -> bool {
    is_in_years(curve, m) && curve.approximate_level(m) == level
}

fn is_slope_near(curve: &StationCurve, m: i64, slope: i128) -> bool {
    is_in_years(curve, m) && curve.approximate_slope(m) == slope
}

/// A minute, its approximate level and its approximate slope: at 90.5 and at 150 degrees.
const NEAR: &[(i64, i128, i128)] = &[
    (
        15_850_141,
        -36_555_875_942_400_000_000_000,
        -1_244_094_600_369_781_761_638_400_000_000_000,
    ),
    (
        15_850_260,
        -3_591_852_628_377_600_000_000_000,
        -621_924_994_384_618_586_112_000_000_000_000,
    ),
];

fn has_errors(curve: &StationCurve) -> bool {
    curve.level_error() == 1_658_880_000_000_000_000_000
        && curve.slope_error() == 499_787_366_400_000_000_000_000_000_000
}

/// The level at a new year is exact.
fn check_approximate_levels(rt: &impl Abort, curve: &StationCurve) {
    for &(m, level, slope) in NEAR {
        assert_holds(rt, is_level_near(curve, m, level), m);
        assert_holds(rt, is_slope_near(curve, m, slope), m);
    }
    let exact = 3_110_400_000_000_000_000_000_000;
    assert_holds(rt, is_level_near(curve, 15_778_080, exact), "new year");
    assert_holds(rt, has_errors(curve), "errors");
}

/// Returns true if the `n` minutes from `m` on are in this part of the years.
fn is_stretch(curve: &StationCurve, m: i64, n: u32, want: Stretch) -> bool {
    let Some(end) = m.checked_add(i64::from(n)) else {
        return false;
    };
    if m < curve.first() || curve.last() < end || LONGEST_SPAN < n {
        return false;
    }
    curve.stretch(m, n) == want
}

/// A first minute, a number of minutes, and the part of the years in which they are.
const STRETCHES: &[(i64, u32, Stretch)] = &[
    (15_252_480, 1_024, Stretch::Within { year: 0 }),
    (15_776_996, 1_024, Stretch::Within { year: 0 }),
    (15_776_997, 1_024, Stretch::Across { year: 1 }),
    (15_778_139, 1, Stretch::Across { year: 1 }),
    (15_778_140, 1_024, Stretch::Within { year: 1 }),
    (16_000_000, 1_024, Stretch::Within { year: 1 }),
    (16_305_059, 121, Stretch::Across { year: 2 }),
    (16_829_696, 1_024, Stretch::Within { year: 2 }),
];

fn check_stretches(rt: &impl Abort, curve: &StationCurve) {
    for &(m, n, want) in STRETCHES {
        assert_holds(rt, is_stretch(curve, m, n, want), m);
    }
}

#[test]
fn levels_and_stretches_round_new_years(rt: HostRuntime) {
    let curve = pier(rt.alloc(), "60", "1").expect(&rt, "a curve");
    check_levels(&rt, &curve);
    check_approximate_levels(&rt, &curve);
    check_stretches(&rt, &curve);
}

const SUMS: Sums = Sums {
    amount: 1_000_000,
    steep: 300_000_000_000_000,
    near: 8_727_001_000_000,
    far: 2_618_100_300_000_000_000_000,
};

fn has_sums(curve: &StationCurve, year: u32) -> bool {
    year < curve.years() && curve.sums(year) == SUMS
}

fn check_sums(rt: &impl Abort, curve: &StationCurve) {
    assert_holds(rt, curve.years() == 3, "years");
    for year in 0..3 {
        assert_holds(rt, has_sums(curve, year), year);
    }
    curve.limits_hold();
}

#[test]
fn sums_of_years(rt: HostRuntime) {
    let curve = pier(rt.alloc(), "60", "-1").expect(&rt, "a curve");
    check_sums(&rt, &curve);
}

#[test]
fn laws_and_rows_stand(_rt: HostRuntime) {
    year_changes();
    year_sizes();
    approximate_values();
}

/// Returns true if a curve has waves in a year.
fn has_waves(curve: &StationCurve, year: u32) -> bool {
    year < curve.years() && curve.sums(year).amount > 0
}

/// The first and the last minute of a curve, and for each year whether it has waves.
const WAVES: &[(i64, i64, bool, bool, bool)] = &[
    (15_778_140, 16_305_060, true, true, true),
    (15_778_141, 16_305_060, false, true, true),
    (15_778_141, 16_305_059, false, true, false),
    (15_252_480, 15_252_480, true, false, false),
    (16_830_720, 16_830_720, false, false, true),
];

/// Returns for each year whether the curve of a file from `first` to `last` has waves.
fn waves_over(alloc: Global, file: &[u8], first: i64, last: i64) -> Option<(bool, bool, bool)> {
    match curve_over(alloc, file, first, last) {
        Ok(curve) => Some((
            has_waves(&curve, 0),
            has_waves(&curve, 1),
            has_waves(&curve, 2),
        )),
        Err(_) => None,
    }
}

fn has_level_over(alloc: Global, file: &[u8]) -> bool {
    match curve_over(alloc, file, 15_777_960, 15_778_200) {
        Ok(curve) => has_level(&curve, 15_778_048, 940_281, false),
        Err(_) => false,
    }
}

fn check_waves(rt: &impl Abort, alloc: Global, file: &[u8]) {
    for &(first, last, in_first, in_second, in_third) in WAVES {
        let wanted = Some((in_first, in_second, in_third));
        assert_holds(rt, waves_over(alloc, file, first, last) == wanted, first);
    }
    assert_holds(rt, has_level_over(alloc, file), "level");
}

#[test]
fn minutes_are_placed_by_their_years(rt: HostRuntime) {
    let file = pier_file(rt.alloc(), "30", "60", "1", "feet").expect(&rt, "a file");
    check_waves(&rt, rt.alloc(), file.as_bytes());
}

const STEEP: Option<CurveFault> = Some(CurveFault::TooSteep { year: 1999 });

const LARGE: Option<CurveFault> = Some(CurveFault::TooLarge { year: 1999 });

/// A speed, an amplitude, its unit, and the fault of the curve.
const LIMITS: &[(&str, &str, &str, Option<CurveFault>)] = &[
    ("30", "333.333333", "feet", None),
    ("30", "333.333334", "feet", STEEP),
    ("10", "1000", "feet", None),
    ("10", "1000.000001", "feet", LARGE),
    ("10", "1000.000001", "knots^2", Some(CurveFault::Hydraulic)),
];

/// Returns true if both the curve of a file for all minutes and the curve for the first minute of its
/// years have this fault.
fn has_fault(alloc: Global, file: &[u8], want: Option<CurveFault>) -> bool {
    curve_of(alloc, file).err() == want
        && curve_over(alloc, file, 15_252_480, 15_252_480).err() == want
}

fn is_limit(
    alloc: Global,
    speed: &str,
    amplitude: &str,
    unit: &str,
    want: Option<CurveFault>,
) -> bool {
    match pier_file(alloc, speed, "0", amplitude, unit) {
        Ok(file) => has_fault(alloc, file.as_bytes(), want),
        Err(_) => false,
    }
}

#[test]
fn limits(rt: HostRuntime) {
    for &(speed, amplitude, unit, want) in LIMITS {
        let is_limit = is_limit(rt.alloc(), speed, amplitude, unit, want);
        assert_holds(&rt, is_limit, amplitude);
    }
}
