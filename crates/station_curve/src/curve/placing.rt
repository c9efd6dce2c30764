//! Which year's constants, or which blend of two years', a station's minutes use.

ghost use Rattle.std.specs.Prelude.{◌≡◌, ℕ, ◌<◌, ◌≤◌, pos, ◌+ℤ◌, IfSome};
ghost use Rattle.year_blend.specs.declared.spanning.TheConstants.{LONGEST_SPAN};
ghost use Rattle.year_blend.specs.Places.{place_of};
ghost use Rattle.year_blend.specs.Stretches.{stretch_of};

use super::StationCurve;
use crate::calendar::calendar_year_of;
use year_blend::{Place, Stretch, place, stretch};

/// The whole minutes of a mean calendar year.
const MEAN_YEAR: u64 = 525_949;

impl StationCurve {
    ghost use Rattle.station_curve.specs.Curves.{IsPredicted, IsPrediction};
    ghost use Rattle.station_curve.specs.Workings.NumberRanges.{IsPlaceUsed, IsPlainYearOf, IsAround};

    /// Returns which years' constants determine the level at the minutes from `m` to `m + n`, both
    /// included: one year's if each of these minutes is at least an hour from every new year
    /// between two of the book's years, and otherwise both years' around that new year. `m` and
    /// `m + n` are minutes of the curve, and `n` is at most `LONGEST_SPAN` (1,024).
    #[inline(always)]
    pub fn stretch(&self, m: i64, n: u32) -> Stretch
        requires first { IsPredicted self.now m }
        requires last { IsPredicted self.now (m +ℤ pos n) }
        requires length_bound { n ≤ LONGEST_SPAN }
        ensures { result ≡ stretch_of self.now.book.first_year self.now.book.years m n }
    {
        self.limits_hold();
        match self.year_around(m, m + i64::from(n)) {
            Some(year) => Stretch::Within { year },
            None => stretch(self.first_year, self.years(), m, n),
        }
    }

    /// Returns the position of minute `m` among the book's years: the blend at a new year if `m` is
    /// less than an hour from it, and otherwise the year that contains `m`.
    pub(super) fn place(&self, m: i64) -> Place
        requires { IsPredicted self.now m }
        ensures value { result ≡ place_of self.now.book.first_year self.now.book.years m }
        ensures used { IsPlaceUsed self.now m result }
        ensures valid { IsPrediction self.now }
    {
        match self.plain_year(m) {
            Some(year) => Place::Plain { year },
            None => place(self.first_year, self.years(), m),
        }
    }

    /// Returns the index (0 for the book's first year) of the year that contains minute `m`, or `None`
    /// if `m` is less than an hour from a new year between two of the book's years.
    #[inline(always)]
    pub(super) fn plain_year(&self, m: i64) -> Option<u32>
        requires { IsPredicted self.now m }
        ensures year { IsPlainYearOf self.now m result }
        ensures valid { IsPrediction self.now }
    {
        match self.year_around(m, m) {
            Some(year) => Some(year),
            None => calendar_year_of(self.first_year, self.years(), m),
        }
    }

    /// Returns the likely year, counted from 0, of the minutes from `first` to `last`, or `None` unless
    /// they are all at least an hour from both its ends.
    #[inline(always)]
    fn year_around(&self, first: i64, last: i64) -> Option<u32>
        requires first { IsPredicted self.now first }
        requires last { IsPredicted self.now last }
        ensures { IfSome result (λ year. IsAround self.now.book.first_year self.now.book.years first last year) }
    {
        let year = self.likely_year(first);
        if self.years[year as usize].surrounds(first, last) {
            Some(year)
        } else {
            None
        }
    }

    /// Returns the year, counted from 0, that would contain minute `m` if all years had the same
    /// length.
    #[inline(always)]
    fn likely_year(&self, m: i64) -> u32
        ensures { result < self.now.book.years }
    {
        let ended = m.abs_diff(self.years[0].start) / MEAN_YEAR;
        ended.min(self.years.len() as u64 - 1) as u32
    }
}
