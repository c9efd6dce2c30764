//! The waves of each year.

ghost use Rattle.std.specs.Prelude.{◌≡◌, ◌^◌, ◌<◌, ◌≤◌, ◌↔◌, IsTrue, length, Some, None, MatchResult, ◌⊎◌, pos, ◌+ℤ◌, ◌-ℤ◌, ◌≤ℤ◌, unsigned_abs};
ghost use Rattle.harmonics_book.specs.Books.{IsStation};
ghost use Rattle.station_curve.specs.Curves.{year_fault, first_fault};
ghost use Rattle.station_curve.specs.Workings.Prepared.{present_in, IsReadyYear, AreReady};
ghost use Rattle.station_curve.specs.declared.fault.CurveFault.TheVariants.{NoMemory};

use crate::constants::{calendar_year, check_year, present_places, waves_if_asked};
use crate::fault::CurveFault;
use crate::minute_range::MinuteRange;
use crate::wave::Wave;
use crate::year_limits::are_years_within;
use crate::year_sums::{Sums, sums_of_waves};
use harmonics_book::{Station, ValidBook};
use std::alloc::Global;
use year_blend::year_start;

/// The minutes from a new year to each end of its blend: half the length of a blend.
pub const HOUR: i64 = 60;

/// A calendar year of the book, with the waves of one station in this year, or without waves if the
/// curve doesn't need the year.
#[derive(Drop)]
pub struct Year {
    /// The first minute of the year, since 1970-01-01T00:00Z.
    pub start: i64,
    /// The first minute of the next year, since 1970-01-01T00:00Z.
    pub end: i64,
    pub waves: Vec<Wave>,
    /// The four sums over `waves`; all 0 without waves.
    pub sums: Sums,
}

impl Year {
    /// Returns the number of minutes from one hour before the year's first minute to minute `m`. It is
    /// from 0 to 600,000; `m` is counted from 1970-01-01T00:00Z.
    pub fn minutes_to(&self, m: i64) -> u64
        requires least { pos 0 ≤ℤ ((m -ℤ self.now.start) +ℤ pos 60) }
        requires most { ((m -ℤ self.now.start) +ℤ pos 60) ≤ℤ pos 600000 }
        ensures value { result ≡ unsigned_abs ((m -ℤ self.now.start) +ℤ pos 60) }
        ensures small { result ≤ 600000 }
    {
        (m - self.start + HOUR) as u64
    }

    /// Returns true if the minutes from `first` to `last`, both included, are at least 60 minutes
    /// after the year's first minute and at least 60 minutes before the next year's first minute.
    /// Both are at most 4,000,000,000 in absolute value, as all minutes of the years 2 to 9300 are.
    pub fn surrounds(&self, first: i64, last: i64) -> bool
        requires first { unsigned_abs first ≤ 4000000000 }
        requires last { unsigned_abs last ≤ 4000000000 }
        ensures { IsTrue result
            ↔ (((self.now.start +ℤ pos 60) ≤ℤ first) × ((last +ℤ pos 60) ≤ℤ self.now.end)) }
    {
        self.start <= first - HOUR && last + HOUR <= self.end
    }
}

/// Returns one [`Year`] with the waves of `station` for each year of the book. A year that is more than
/// an hour from the minutes of `minute_range` has no waves, because the curve doesn't need them.
///
/// # Errors
/// [`CurveFault::TooLarge`] or [`CurveFault::TooSteep`] for the first year of the book with constants
/// beyond `MOST_AMOUNT` or `MOST_STEEPNESS` (`TooLarge` if the year exceeds both limits);
/// [`CurveFault::NoMemory`] if memory runs out.
pub fn years_of(
    alloc: Global,
    book: &ValidBook<'_>,
    station: &Station,
    minute_range: MinuteRange,
) -> Result<Vec<Year>, CurveFault>
    requires station { IsStation (length book.now.constituents) station.now }
    requires first { unsigned_abs minute_range.first ≤ 10 ^ 12 }
    requires last { unsigned_abs minute_range.last ≤ 10 ^ 12 }
    ensures { MatchResult result
        (λ years. AreReady book.now station.now minute_range.first minute_range.last book.now.years years.items)
        (λ fault. (fault ≡ NoMemory) ⊎ (first_fault book.now station.now book.now.years ≡ Some fault)) }
{
    let places = present_places(alloc, book, station)?;
    let present = places.as_slice();
    let is_within = are_years_within(book, station, present);
    let mut years = Vec::with_capacity(alloc, book.get().years as usize)?;
    for year in 0..book.get().years {
        match year_of(alloc, book, station, present, year, minute_range, is_within) {
            Ok(prepared) => years.push(prepared)?,
            Err(fault) => return Err(fault),
        }
    }
    Ok(years)
}

/// Returns the year with index `year` (0 for the book's first year), with its waves, if its constants
/// don't exceed `MOST_AMOUNT` or `MOST_STEEPNESS`. `present` are the indices of the constituents with
/// an amplitude other than 0. `is_within` says that no year exceeds these limits.
///
/// # Errors
/// The limit that the year exceeds; [`CurveFault::NoMemory`] if memory runs out.
fn year_of(
    alloc: Global,
    book: &ValidBook<'_>,
    station: &Station,
    present: &[usize],
    year: u32,
    minute_range: MinuteRange,
    is_within: bool,
) -> Result<Year, CurveFault>
    requires station { IsStation (length book.now.constituents) station.now }
    requires present { present.now ≡ present_in book.now station.now }
    requires count_bound { length present.now ≤ 500 }
    requires year { year < book.now.years }
    requires few { year < 500 }
    requires within { IsTrue is_within → year_fault book.now station.now year ≡ None }
    requires first { unsigned_abs minute_range.first ≤ 10 ^ 12 }
    requires last { unsigned_abs minute_range.last ≤ 10 ^ 12 }
    ensures { MatchResult result
        (λ prepared. IsReadyYear book.now station.now minute_range.first minute_range.last year prepared)
        (λ fault. (fault ≡ NoMemory) ⊎ (year_fault book.now station.now year ≡ Some fault)) }
{
    if let Err(fault) = check_unless(is_within, book, station, present, year) {
        return Err(fault);
    }
    let start = year_start(calendar_year(book, year));
    let end = year_start(calendar_year(book, year + 1));
    let is_asked = minute_range.touches(start, end);
    let waves = waves_if_asked(alloc, book, station, present, year, is_asked)?;
    let sums = sums_of_waves(waves.as_slice());
    Ok(Year {
        start,
        end,
        waves,
        sums,
    })
}

/// Checks that the constants of the year with index `year` (0 for the book's first year), don't exceed
/// `MOST_AMOUNT` or `MOST_STEEPNESS`, unless `is_within` says that no year does.
///
/// # Errors
/// [`CurveFault::TooLarge`] or [`CurveFault::TooSteep`] if the year exceeds a limit.
fn check_unless(
    is_within: bool,
    book: &ValidBook<'_>,
    station: &Station,
    present: &[usize],
    year: u32,
) -> Result<(), CurveFault>
    requires station { IsStation (length book.now.constituents) station.now }
    requires present { present.now ≡ present_in book.now station.now }
    requires count_bound { length present.now ≤ 500 }
    requires year { year < book.now.years }
    requires within { IsTrue is_within → year_fault book.now station.now year ≡ None }
    ensures { MatchResult result
        (λ _. year_fault book.now station.now year ≡ None)
        (λ fault. year_fault book.now station.now year ≡ Some fault) }
{
    if is_within {
        Ok(())
    } else {
        check_year(book, station, present, year)
    }
}
