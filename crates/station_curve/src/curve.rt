//! The level and the slope of a station at each minute of a book's years.

ghost use Rattle.std.specs.Prelude.{
  ◌≡◌,
  ℕ,
  ◌+◌,
  ◌*◌,
  ◌^◌,
  ◌<◌,
  ◌≤◌,
  length,
  pos,
  ◌+ℤ◌,
  ◌-ℤ◌,
  ◌≤ℤ◌,
  unsigned_abs,
  IfSome,
  slice_get,
};
ghost use Rattle.harmonics_book.specs.Books.{IsBook, IsStation};
ghost use Rattle.year_blend.specs.declared.parts.Place.TheVariants.{Plain};
ghost use Rattle.year_blend.specs.Places.{InDomain};
ghost use Rattle.year_blend.specs.Weights.{total_weight};

mod placing;
mod year_values;

use crate::blend::{by_full_weight, drift, error_of, mixed, speed_error_of, weighted};
use crate::fault::{CurveFault, is_hydraulic};
use crate::greatest::{Greatest, greatest_of_years};
use crate::minute_range::{MinuteRange, all_minutes};
use crate::origin::Origin;
use crate::year_sums::Sums;
use crate::years::{Year, years_of};
use decimal_text::rounded;
use harmonics_book::{Book, Station, ValidBook};
use std::alloc::{AllocError, Global};
use std::marker::Model;
use year_blend::{Place, TOTAL_WEIGHT, weight};

/// The predicted tide of a station: its level and slope at each minute of a book's years, or of a range
/// of minutes in these years.
///
/// Minutes are counted from 1970-01-01T00:00Z. A level is in billionths of a millionth of the station's
/// unit, multiplied by [`TOTAL_WEIGHT`] (4,147,200,000, the total weight of a blend). A slope, the
/// change of the level per minute, is in billionths of a millionth of the station's unit a minute,
/// multiplied by [`TOTAL_WEIGHT`] and by 34,377,467,708 (the units of angle in a radian). Only `new`
/// and `over` allocate.
#[derive(Drop)]
pub struct StationCurve {
    origin: Origin,
    minutes: MinuteRange,
    first_year: i32,
    datum: i64,
    years: Vec<Year>,
    greatest: Greatest,
}

impl Model for StationCurve {
    ghost use Rattle.station_curve.specs.Curves.{Prediction};

    ghost Value = { Prediction };

    ghost use Rattle.station_curve.specs.Workings.Inside.{prediction_in, IsReady};

    ghost view = { prediction_in };

    ghost invariant = { IsReady };
}

impl StationCurve {
    ghost use Rattle.decimal_text.specs.Expected.{EqualsUnlessNoMemory};
    ghost use Rattle.station_curve.specs.Curves.{curve_of, curve_over, is_out_of_memory, prediction_over, sums_for, IsPredicted, IsPrediction};
    ghost use Rattle.station_curve.specs.Schureman.{predicted_level, predicted_slope, predicted_millionths};
    ghost use Rattle.station_curve.specs.Workings.Prepared.{AreReady};
    ghost use Rattle.station_curve.specs.Approximate.{approximate_level_of, approximate_slope_of};
    ghost use Rattle.station_curve.specs.Errors.{level_error_of, slope_error_of};
    ghost use Rattle.station_curve.specs.Limits.{AreWithinLimits};
    ghost use Rattle.station_curve.specs.Workings.NumberRanges.{IsPlaceUsed, IsPlainYearOf};

    /// Returns the curve of the station with index `station` (0 for the book's first station), for all
    /// minutes of the book's years and the first minute after them.
    ///
    /// # Errors
    /// [`CurveFault::Hydraulic`] if the station is a hydraulic current; otherwise, for the first
    /// year of the book that exceeds a limit, [`CurveFault::TooLarge`] if the absolute values of
    /// the amplitudes sum to more than 10^9 millionths of the station's unit, or else
    /// [`CurveFault::TooSteep`] if, each multiplied by the speed in units of 1/600,000,000 degree a
    /// minute, they sum to more than 10^17. [`CurveFault::NoMemory`] if memory runs out.
    ///
    /// # Examples
    /// ```
    /// let text =
    ///     b"1\nS2 30\n1999\n1\nS2\n0\n*END*\n1\nS2\n1\n*END*\nPier\n0:00 :UTC\n0 feet\nS2 1 0\n";
    /// let book = read_book(rt.alloc(), text)?;
    /// assert_eq!(rt; book.stations.as_slice().len(), 1);
    /// let curve = StationCurve::new(rt.alloc(), &book, 0)?;
    /// let (first, last) = (curve.first(), curve.last());
    /// assert!(rt; first < last);
    /// assert_eq!(rt; curve.millionths(first), 1_000_000);
    /// ```
    pub fn new(alloc: Global, book: &Book, station: u32) -> Result<StationCurve, CurveFault>
        requires book { IsBook book.now }
        requires station { station < length book.now.stations }
        ensures { IfSome (slice_get book.now.stations station) (λ s. EqualsUnlessNoMemory is_out_of_memory (curve_of book.now s) result) }
    {
        let station = &book.stations.as_slice()[station as usize];
        let book = ValidBook::new(book);
        StationCurve::of_station(alloc, &book, station, all_minutes(&book))
    }

    /// Returns the curve of the station with index `station` (0 for the book's first station), for the
    /// minutes from `first` to `last`, both included. `first` and `last` are counted from
    /// 1970-01-01T00:00Z, and are in the book's years or the first minute after them.
    ///
    /// The curve has no waves for a year that is more than an hour from these minutes, so it is made
    /// faster than the curve of all minutes.
    ///
    /// # Errors
    /// [`CurveFault::Hydraulic`] if the station is a hydraulic current; otherwise, for the first
    /// year of the book that exceeds a limit, [`CurveFault::TooLarge`] if the absolute values of
    /// the amplitudes sum to more than 10^9 millionths of the station's unit, or else
    /// [`CurveFault::TooSteep`] if, each multiplied by the speed in units of 1/600,000,000 degree a
    /// minute, they sum to more than 10^17. [`CurveFault::NoMemory`] if memory runs out.
    pub fn over(
        alloc: Global,
        book: &Book,
        station: u32,
        first: i64,
        last: i64,
    ) -> Result<StationCurve, CurveFault>
        requires book { IsBook book.now }
        requires station { station < length book.now.stations }
        requires first { InDomain book.now.first_year book.now.years first }
        requires last { InDomain book.now.first_year book.now.years last }
        requires forward { first ≤ℤ last }
        ensures { IfSome (slice_get book.now.stations station)
            (λ s. EqualsUnlessNoMemory is_out_of_memory (curve_over book.now s first last) result) }
    {
        let station = &book.stations.as_slice()[station as usize];
        StationCurve::of_station(
            alloc,
            &ValidBook::new(book),
            station,
            MinuteRange { first, last },
        )
    }

    /// Returns the curve of `station` for the minutes of `minute_range`.
    fn of_station(
        alloc: Global,
        book: &ValidBook<'_>,
        station: &Station,
        minute_range: MinuteRange,
    ) -> Result<StationCurve, CurveFault>
        requires book { IsBook book.now }
        requires station { IsStation (length book.now.constituents) station.now }
        requires first { InDomain book.now.first_year book.now.years minute_range.first }
        requires last { InDomain book.now.first_year book.now.years minute_range.last }
        requires forward { minute_range.first ≤ℤ minute_range.last }
        ensures { EqualsUnlessNoMemory is_out_of_memory (curve_over book.now station.now minute_range.first minute_range.last) result }
    {
        if is_hydraulic(station.units) {
            return Err(CurveFault::Hydraulic);
        }
        match years_of(alloc, book, station, minute_range) {
            Ok(years) => Ok(StationCurve::of_years(book, station, minute_range, years)),
            Err(fault) => Err(fault),
        }
    }

    /// Returns the curve of `station` with the waves of `years`.
    fn of_years(
        book: &ValidBook<'_>,
        station: &Station,
        minute_range: MinuteRange,
        years: Vec<Year>,
    ) -> StationCurve
        requires station { IsStation (length book.now.constituents) station.now }
        requires years { AreReady book.now station.now minute_range.first minute_range.last book.now.years years.items }
        requires first { InDomain book.now.first_year book.now.years minute_range.first }
        requires last { InDomain book.now.first_year book.now.years minute_range.last }
        requires forward { minute_range.first ≤ℤ minute_range.last }
        ensures { result ≡ prediction_over book.now station.now minute_range.first minute_range.last }
    {
        let greatest = greatest_of_years(years.as_slice());
        StationCurve {
            origin: Origin::of(book.get(), station),
            minutes: minute_range,
            first_year: book.get().first_year,
            datum: station.datum,
            years,
            greatest,
        }
    }

    /// Returns the first minute, since 1970-01-01T00:00Z, at which the curve has a level. For a curve
    /// of all minutes of its book this is the first minute of the book's years.
    pub fn first(&self) -> i64
        ensures { result ≡ self.now.first }
    {
        self.minutes.first
    }

    /// Returns the last minute, since 1970-01-01T00:00Z, at which the curve has a level. For a curve of
    /// all minutes of its book this is the first minute after the book's years.
    pub fn last(&self) -> i64
        ensures { result ≡ self.now.last }
    {
        self.minutes.last
    }

    /// Returns the first calendar year for which the curve's book has constants.
    pub fn first_year(&self) -> i32
        ensures { result ≡ self.now.book.first_year }
    {
        self.first_year
    }

    /// Returns the number of years for which the curve's book has constants.
    pub fn years(&self) -> u32
        ensures { result ≡ self.now.book.years }
    {
        self.years.len() as u32
    }

    /// Returns four sums over the station's waves in the year with index `year` (0 for the book's
    /// first year): `amount` of the absolute values of the amplitudes, `steep` of amplitude times
    /// speed, and `near` and `far`, bounds on the change of the level and of the slope in a minute
    /// by the year's constants. All four are 0 if the year is more than an hour from the curve's
    /// minutes. The fields of [`Sums`] say the units.
    pub fn sums(&self, year: u32) -> Sums
        requires { year < self.now.book.years }
        ensures value { result ≡ sums_for self.now year }
        ensures size { AreWithinLimits result }
    {
        self.years[year as usize].sums
    }

    /// Does nothing at run time. Its contract states that in each year of the book the absolute
    /// values of the station's amplitudes sum to at most 10^9 millionths of its unit and, each
    /// multiplied by the speed in units of 1/600,000,000 degree a minute, to at most 10^17; and
    /// that the curve's minutes are in the book's years or the first minute after them.
    pub fn limits_hold(&self)
        ensures { IsPrediction self.now }
    {
        let _first_year = self.first_year;
    }

    /// Returns the level at minute `m`, counted from 1970-01-01T00:00Z, from `first()` to `last()`.
    /// Less than an hour from a new year between two of the book's years, it is the weighted mean
    /// of both years' levels (a blend). It is in billionths of a millionth of the station's unit,
    /// multiplied by [`TOTAL_WEIGHT`] (4,147,200,000, the sum of the weights), and at most 11,000
    /// units in absolute value.
    pub fn level(&self, m: i64) -> i128
        requires { IsPredicted self.now m }
        ensures value { result ≡ predicted_level self.now.book self.now.station m }
        ensures size { unsigned_abs result ≤ total_weight * (11 * 10 ^ 18) }
    {
        match self.place(m) {
            Place::Plain { year } => weighted(TOTAL_WEIGHT, self.year_level(year, m)),
            Place::Blend { year, x } => mixed(
                self.year_level(year - 1, m),
                self.year_level(year, m),
                weight(x),
            ),
        }
    }

    /// Returns the slope, the change of the level per minute, at minute `m`, counted from
    /// 1970-01-01T00:00Z, from `first()` to `last()`. It is in the station's unit a minute,
    /// multiplied by 10^15 * 34,377,467,708 * 4,147,200,000 (34,377,467,708 units of angle are a
    /// radian, and 4,147,200,000 is [`TOTAL_WEIGHT`], the total weight of a blend), and below 10^37
    /// in absolute value.
    pub fn slope(&self, m: i64) -> i128
        requires { IsPredicted self.now m }
        ensures value { result ≡ predicted_slope self.now.book self.now.station m }
        ensures size { unsigned_abs result < 10 ^ 37 }
    {
        match self.place(m) {
            Place::Plain { year } => weighted(TOTAL_WEIGHT, self.year_slope(year, m)),
            Place::Blend { year, x } => {
                let change = self.year_heights(year, m) - self.year_heights(year - 1, m);
                mixed(
                    self.year_slope(year - 1, m),
                    self.year_slope(year, m),
                    weight(x),
                ) + drift(change, x)
            }
        }
    }

    /// Returns an approximation of the level at minute `m`, faster than
    /// [`level`](StationCurve::level). It differs from the level by at most
    /// [`level_error`](StationCurve::level_error), and is exact less than an hour from a new year
    /// between two of the book's years. It is in billionths of a millionth of the station's unit,
    /// multiplied by [`TOTAL_WEIGHT`] (4,147,200,000), and at most 12,000 units in absolute value.
    #[inline(always)]
    pub fn approximate_level(&self, m: i64) -> i128
        requires { IsPredicted self.now m }
        ensures value { result ≡ approximate_level_of self.now.book self.now.station m }
        ensures approximate { unsigned_abs (result -ℤ predicted_level self.now.book self.now.station m) ≤ level_error_of self.now }
        ensures size { unsigned_abs result ≤ total_weight * (12 * 10 ^ 18) }
    {
        match self.plain_year(m) {
            Some(year) => by_full_weight(self.approximate_year_level(year, m)),
            None => self.level(m),
        }
    }

    /// Returns an approximation of the slope at minute `m`, faster than
    /// [`slope`](StationCurve::slope). It differs from the slope by at most
    /// [`slope_error`](StationCurve::slope_error), and is exact less than an hour from a new year
    /// between two of the book's years. It is in the station's unit a minute, multiplied by
    /// 10^15 * 34,377,467,708 * 4,147,200,000 (34,377,467,708 units of angle are a radian, and
    /// 4,147,200,000 is [`TOTAL_WEIGHT`], the total weight of a blend), and below 2 * 10^37 in
    /// absolute value.
    #[inline(always)]
    pub fn approximate_slope(&self, m: i64) -> i128
        requires { IsPredicted self.now m }
        ensures value { result ≡ approximate_slope_of self.now.book self.now.station m }
        ensures approximate { unsigned_abs (result -ℤ predicted_slope self.now.book self.now.station m) ≤ slope_error_of self.now }
        ensures size { unsigned_abs result < 2 * 10 ^ 37 }
    {
        match self.plain_year(m) {
            Some(year) => by_full_weight(self.approximate_year_slope(year, m)),
            None => self.slope(m),
        }
    }

    /// Returns a bound on the difference between the curve's approximate level and its level at
    /// each minute, in billionths of a millionth of the station's unit, multiplied by
    /// [`TOTAL_WEIGHT`] (4,147,200,000). It is at most 2 * 10^24, less than half a unit.
    pub fn level_error(&self) -> i128
        ensures value { result ≡ pos (level_error_of self.now) }
        ensures size { unsigned_abs result ≤ 2 * 10 ^ 24 }
    {
        error_of(self.greatest.amount)
    }

    /// Returns a bound on the difference between the curve's approximate slope and its slope at
    /// each minute, in the station's unit a minute, multiplied by
    /// 10^15 * 34,377,467,708 * 4,147,200,000 (34,377,467,708 units of angle are a radian, and
    /// 4,147,200,000 is [`TOTAL_WEIGHT`], the total weight of a blend). It is at most 2 * 10^32.
    pub fn slope_error(&self) -> i128
        ensures value { result ≡ pos (slope_error_of self.now) }
        ensures size { unsigned_abs result ≤ 2 * 10 ^ 32 }
    {
        error_of(self.greatest.steepness) + speed_error_of(self.greatest.amount)
    }

    /// Returns the level at minute `m`, counted from 1970-01-01T00:00Z, from `first()` to `last()`,
    /// in whole millionths of the station's unit; a half is rounded away from 0. The result is at
    /// most 11,000,000,000 in absolute value.
    pub fn millionths(&self, m: i64) -> i64
        requires { IsPredicted self.now m }
        ensures value { result ≡ predicted_millionths self.now.book self.now.station m }
        ensures size { unsigned_abs result ≤ 11 * 10 ^ 9 }
    {
        rounded(self.level(m), TOTAL_WEIGHT as u64 * 1_000_000_000) as i64
    }
}
