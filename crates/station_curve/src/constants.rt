//! A station's constants in one year of a book.

ghost use Rattle.std.specs.Prelude.{
  ◌≡◌,
  ◌+◌,
  ◌*◌,
  ◌^◌,
  ◌<◌,
  ◌≤◌,
  if◌then◌else◌,
  [],
  length,
  filter,
  Some,
  None,
  MatchResult,
  IfOk,
  unsigned_abs,
  pos,
  ◌+ℤ◌,
  ◌-ℤ◌,
  ◌*ℤ◌,
};
ghost use Rattle.decimal_text.specs.Rounding.{rounded_of};
ghost use Rattle.fixed_sine.specs.Circle.{circle};
ghost use Rattle.harmonics_book.specs.Books.{IsStation};
ghost use Rattle.year_blend.specs.Places.{start_of};
ghost use Rattle.year_blend.specs.Years.{IsYearInReach};
ghost use Rattle.station_curve.specs.Waves.{amount_of, steepness_of};
ghost use Rattle.station_curve.specs.Limits.{most_amount, most_steepness};
ghost use Rattle.station_curve.specs.Schureman.{speed_of, amplitude_of, phase_of};
ghost use Rattle.station_curve.specs.Curves.{waves_of, year_fault};
ghost use Rattle.station_curve.specs.Workings.Prepared.{is_present, present_in};

use crate::fault::CurveFault;
use crate::wave::Wave;
use decimal_text::rounded_short;
use fixed_sine::reduce;
use harmonics_book::{Station, ValidBook};
use std::alloc::{AllocError, Global};

/// The limit on the sum of the absolute values of a station's amplitudes in one year, in millionths
/// of the station's unit; a station that exceeds it in a year of the book has no curve.
pub const MOST_AMOUNT: u64 = 1_000_000_000;

/// The limit on the sum, over a station's constituents in one year, of the absolute value of the
/// amplitude multiplied by the speed; a station that exceeds it in a year of the book has no curve.
/// Amplitudes are in millionths of the station's unit, speeds in units of 1/600,000,000 degree a
/// minute.
pub const MOST_STEEPNESS: u128 = 100_000_000_000_000_000;

/// Returns the indices (0 for the first) of the book's constituents that have an amplitude other
/// than 0 at `station`, in ascending order. There are at most 500, because a book has at most 500
/// constituents.
///
/// # Errors
/// [`AllocError`] if memory runs out.
pub fn present_places(
    alloc: Global,
    book: &ValidBook<'_>,
    station: &Station,
) -> Result<Vec<usize>, AllocError>
    requires station { IsStation (length book.now.constituents) station.now }
    ensures places { IfOk result (λ places. places.items ≡ present_in book.now station.now) }
    ensures count_bound { IfOk result (λ places. length places.items ≤ 500) }
{
    let mut places = Vec::new(alloc);
    for k in 0..count(book) {
        if station.amplitude.as_slice()[k] != 0 {
            places.push(k)?;
        }
    }
    Ok(places)
}

/// Checks that the constants of `station` in the year with index `year` (0 for the book's first
/// year) don't exceed [`MOST_AMOUNT`] or [`MOST_STEEPNESS`]. `present` holds the indices of the
/// constituents with an amplitude other than 0, at most 500.
///
/// # Errors
/// [`CurveFault::TooLarge`] if the absolute values of the amplitudes sum to more than 1,000,000,000
/// millionths of the station's unit; otherwise [`CurveFault::TooSteep`] if, each multiplied by the
/// constituent's speed in units of 1/600,000,000 degree a minute, they sum to more than 10^17.
pub fn check_year(
    book: &ValidBook<'_>,
    station: &Station,
    present: &[usize],
    year: u32,
) -> Result<(), CurveFault>
    requires station { IsStation (length book.now.constituents) station.now }
    requires present { present.now ≡ present_in book.now station.now }
    requires count_bound { length present.now ≤ 500 }
    requires year { year < book.now.years }
    ensures { MatchResult result
        (λ _. year_fault book.now station.now year ≡ None)
        (λ fault. year_fault book.now station.now year ≡ Some fault) }
{
    let (amount, steepness) = sums(book, station, present, year);
    let year = calendar_year(book, year);
    if amount > MOST_AMOUNT {
        return Err(CurveFault::TooLarge { year });
    }
    if steepness > MOST_STEEPNESS {
        return Err(CurveFault::TooSteep { year });
    }
    Ok(())
}

/// Returns the calendar year, such as 2000, of the year with index `year` (0 for the book's first
/// year). `year` is at most the number of the book's years, for which the result is the year after the
/// last.
pub fn calendar_year(book: &ValidBook<'_>, year: u32) -> i32
    requires { year ≤ book.now.years }
    ensures value { result ≡ book.now.first_year +ℤ pos year }
    ensures reach { IsYearInReach result }
{
    book.get().first_year + year as i32
}

/// Returns the number of constituents of the book.
fn count(book: &ValidBook<'_>) -> usize
    ensures value { result ≡ length book.now.constituents }
    ensures count_bound { result ≤ 500 }
{
    book.get().constituents.as_slice().len()
}

/// Returns the sum of the absolute values of the amplitudes in the year with index `year` (0 for the
/// book's first year), in millionths of the station's unit, and the sum of each size times the speed in
/// units of 1/600,000,000 degree a minute.
fn sums(book: &ValidBook<'_>, station: &Station, present: &[usize], year: u32) -> (u64, u128)
    requires station { IsStation (length book.now.constituents) station.now }
    requires present { present.now ≡ present_in book.now station.now }
    requires count_bound { length present.now ≤ 500 }
    requires year { year < book.now.years }
    ensures amount { result.0 ≡ amount_of (waves_of book.now station.now year) }
    ensures steepness { result.1 ≡ steepness_of (waves_of book.now station.now year) }
{
    let mut amount = 0;
    let mut steepness = 0;
    for place in present {
        let k = *place;
        let size = amplitude(book, station, year, k).unsigned_abs();
        amount += size;
        steepness += u128::from(size) * u128::from(speed(book, k));
    }
    (amount, steepness)
}

/// Returns the waves of `station` with an amplitude other than 0 in the year with index `year` (0
/// for the book's first year), which is within the limits of a curve. Returns no waves if
/// `is_asked` is false: then the year is more than an hour from the curve's minutes, so they don't
/// use its constants. `present` holds the indices of the constituents with an amplitude other than
/// 0.
///
/// # Errors
/// [`AllocError`] if memory runs out.
pub fn waves_if_asked(
    alloc: Global,
    book: &ValidBook<'_>,
    station: &Station,
    present: &[usize],
    year: u32,
    is_asked: bool,
) -> Result<Vec<Wave>, AllocError>
    requires station { IsStation (length book.now.constituents) station.now }
    requires present { present.now ≡ present_in book.now station.now }
    requires year { year < book.now.years }
    requires within { year_fault book.now station.now year ≡ None }
    ensures { IfOk result (λ waves. waves.items ≡ (if is_asked then filter is_present (waves_of book.now station.now year) else [])) }
{
    if is_asked {
        year_waves(alloc, book, station, present, year)
    } else {
        Ok(Vec::new(alloc))
    }
}

/// Returns the waves of the year with index `year` (0 for the book's first year), except for
/// constituents without an amplitude. The year's constants don't exceed `MOST_AMOUNT` or
/// `MOST_STEEPNESS`.
fn year_waves(
    alloc: Global,
    book: &ValidBook<'_>,
    station: &Station,
    present: &[usize],
    year: u32,
) -> Result<Vec<Wave>, AllocError>
    requires station { IsStation (length book.now.constituents) station.now }
    requires present { present.now ≡ present_in book.now station.now }
    requires year { year < book.now.years }
    requires within { year_fault book.now station.now year ≡ None }
    ensures { IfOk result (λ waves. waves.items ≡ filter is_present (waves_of book.now station.now year)) }
{
    let mut waves = Vec::with_capacity(alloc, present.len())?;
    for place in present {
        let k = *place;
        let amplitude = amplitude(book, station, year, k);
        if amplitude != 0 {
            waves.push(Wave::new(amplitude, speed(book, k), phase(book, station, year, k)))?;
        }
    }
    Ok(waves)
}

/// Returns the amplitude of constituent `k` times the node factor of year `year`, both counted from 0,
/// in millionths of the station's unit.
fn amplitude(book: &ValidBook<'_>, station: &Station, year: u32, k: usize) -> i64
    requires station { IsStation (length book.now.constituents) station.now }
    requires year { year < book.now.years }
    requires place { k < length book.now.constituents }
    ensures value { result ≡ amplitude_of book.now station.now year k }
    ensures size { unsigned_abs result ≤ 10 ^ 11 }
{
    let amplitude = station.amplitude.as_slice()[k];
    if amplitude == 0 {
        return 0;
    }
    let factor = book.get().factors.as_slice()[place_in_table(book, year, k)];
    effective(amplitude, factor)
}

/// Returns `amplitude` times the node factor `factor`, both in millionths, in whole millionths.
fn effective(amplitude: i64, factor: i64) -> i64
    requires amplitude { unsigned_abs amplitude ≤ 10 ^ 10 }
    requires factor { unsigned_abs factor ≤ 10 ^ 7 }
    ensures value { result ≡ rounded_of (amplitude *ℤ factor) 1000000 }
    ensures size { unsigned_abs result ≤ 10 ^ 11 }
{
    rounded_short(amplitude * factor, 1_000_000)
}

/// Returns the index of the value of constituent `k` in year `year`, both counted from 0, in a table
/// that has for each constituent a value for each year.
fn place_in_table(book: &ValidBook<'_>, year: u32, k: usize) -> usize
    requires year { year < book.now.years }
    requires place { k < length book.now.constituents }
    ensures value { result ≡ k * book.now.years + year }
    ensures within { result < length book.now.constituents * book.now.years }
{
    k * book.get().years as usize + year as usize
}

/// Returns the speed of the constituent with index `k` (0 for the book's first), in units of
/// 1/600,000,000 degree a minute, from 0 to 3,600,000,000 (six degrees a minute).
pub fn speed(book: &ValidBook<'_>, k: usize) -> u64
    requires place { k < length book.now.constituents }
    ensures value { pos result ≡ speed_of book.now k }
    ensures size { result ≤ 3600000000 }
{
    let constituent = &book.get().constituents.as_slice()[k];
    constituent.speed as u64
}

/// Returns the phase of constituent `k` an hour before year `year` begins, both counted from 0, in
/// units of 1/600,000,000 degree.
fn phase(book: &ValidBook<'_>, station: &Station, year: u32, k: usize) -> u64
    requires station { IsStation (length book.now.constituents) station.now }
    requires year { year < book.now.years }
    requires place { k < length book.now.constituents }
    ensures value { result ≡ phase_of book.now station.now year (start_of book.now.first_year year -ℤ pos 60) k }
    ensures turn { result < circle }
{
    let argument = book.get().angles.as_slice()[place_in_table(book, year, k)];
    let epoch = station.epoch.as_slice()[k];
    let minutes = i64::from(station.meridian) - 60;
    let angle = angle(speed(book, k) as i64, minutes, argument, epoch);
    reduce(i128::from(angle)) as u64
}

/// Returns the angle of a constituent, in units of 1/600,000,000 degree: `speed`, in such units a
/// minute, times `minutes`, plus the year's equilibrium argument less the epoch, both in ten-millionths
/// of a degree.
fn angle(speed: i64, minutes: i64, argument: i64, epoch: i64) -> i64
    requires speed { unsigned_abs speed ≤ 3600000000 }
    requires minutes { unsigned_abs minutes ≤ 1100 }
    requires argument { unsigned_abs argument ≤ 7200000000 }
    requires epoch { unsigned_abs epoch ≤ 7200000000 }
    ensures value { result ≡ (speed *ℤ minutes) +ℤ (pos 60 *ℤ (argument -ℤ epoch)) }
    ensures size { unsigned_abs result ≤ 10 ^ 13 }
{
    speed * minutes + 60 * (argument - epoch)
}
