//! The limits on a year's sums, tested for all years at once.

ghost use Rattle.std.specs.Prelude.{◌≡◌, ℕ, ◌+◌, ◌*◌, ◌^◌, ◌<◌, ◌≤◌, IsTrue, All, length, None, ℤ, pos, ◌≤ℤ◌, unsigned_abs, slice_index_or};
ghost use Rattle.harmonics_book.specs.Books.{IsBook, IsStation, IsWithin};
ghost use Rattle.station_curve.specs.Curves.{year_fault};
ghost use Rattle.station_curve.specs.Schureman.{amplitude_of};
ghost use Rattle.station_curve.specs.Workings.Prepared.{present_in};
ghost use Rattle.station_curve.specs.Workings.YearLimits.{factors_of};

use crate::constants::{MOST_AMOUNT, MOST_STEEPNESS, speed};
use harmonics_book::{Station, ValidBook};

/// Returns true if a quick test shows that the constants of `station` are within the limits
/// `MOST_AMOUNT` and `MOST_STEEPNESS` in each year of the book: it uses the greatest node factor of
/// each constituent for all years. If the result is false, a year may still be within them.
/// `present` holds the indices of the constituents with an amplitude other than 0, at most 500.
pub fn are_years_within(book: &ValidBook<'_>, station: &Station, present: &[usize]) -> bool
    requires station { IsStation (length book.now.constituents) station.now }
    requires present { present.now ≡ present_in book.now station.now }
    requires count_bound { length present.now ≤ 500 }
    ensures { IsTrue result → (year : ℕ) → year < book.now.years → year_fault book.now station.now year ≡ None }
{
    let mut amount = 0;
    let mut steepness = 0;
    for place in present {
        let size = greatest_size(book, station, *place);
        amount += size;
        steepness += u128::from(size) * u128::from(speed(book, *place));
    }
    amount <= MOST_AMOUNT && steepness <= MOST_STEEPNESS
}

/// Returns a number, in millionths of the station's unit, that no year's amplitude of constituent `k`
/// exceeds in size: the amplitude times the greatest node factor, rounded up.
fn greatest_size(book: &ValidBook<'_>, station: &Station, k: usize) -> u64
    requires station { IsStation (length book.now.constituents) station.now }
    requires place { k < length book.now.constituents }
    ensures value { (year : ℕ) → year < book.now.years → unsigned_abs (amplitude_of book.now station.now year k) ≤ result }
    ensures size { result ≤ 10 ^ 11 + 1 }
{
    let size = station.amplitude.as_slice()[k].unsigned_abs();
    size * greatest_of(factors_of(book, k)) / 1_000_000 + 1
}

/// Returns the node factors of constituent `k`, one for each year.
fn factors_of<'a>(book: &ValidBook<'a>, k: usize) -> &'a [i64]
    requires place { k < length book.now.constituents }
    ensures value { result.now ≡ factors_of book.now k }
    ensures valid { IsBook book.now }
{
    let years = book.get().years as usize;
    let (_, rest) = book.get().factors.as_slice().split_at(k * years);
    rest.split_at(years).0
}

/// Returns the greatest of the node factors `factors`, in millionths, none of them negative; 0 if there
/// is none.
fn greatest_of(factors: &[i64]) -> u64
    requires { All (IsWithin (pos 0) (pos 10000000)) factors.now }
    ensures value { (place : ℕ) → place < length factors.now → slice_index_or factors.now place (pos 0) ≤ℤ pos result }
    ensures size { result ≤ 10000000 }
{
    let mut greatest = 0;
    for factor in factors {
        if *factor > greatest {
            greatest = *factor;
        }
    }
    greatest as u64
}
