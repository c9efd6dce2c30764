//! The levels and slopes of a station by the constants of one year.

ghost use Rattle.std.specs.Prelude.{◌≡◌, ◌*◌, ◌^◌, ◌≤◌, unsigned_abs, filter};

use super::StationCurve;
use crate::summing::{
    approximate_falls, approximate_heights, falls, heights, in_billionths, in_fall_units,
    mean_level,
};
use crate::wave::Wave;

/// The stored waves of a year, and a minute counted from an hour before the year's start.
#[derive(Clone, Copy)]
struct WavesAt<'a> {
    waves: &'a [Wave],
    minutes: u64,
}

impl StationCurve {
    ghost use Rattle.station_curve.specs.Approximate.{approximate_year_level, approximate_year_slope};
    ghost use Rattle.station_curve.specs.Curves.{waves_of, AreTimes};
    ghost use Rattle.station_curve.specs.Levels.{minutes_into};
    ghost use Rattle.station_curve.specs.Schureman.{predicted_year_level, predicted_year_slope};
    ghost use Rattle.station_curve.specs.Waves.{heights_of, amount_of, steepness_of};
    ghost use Rattle.station_curve.specs.Workings.Prepared.{is_present};
    ghost use Rattle.station_curve.specs.Workings.NumberRanges.{IsUsed};

    /// Returns the level at minute `m` by the constants of the year with index `year` (0 for the book's
    /// first year), in billionths of a millionth of the station's unit.
    pub(super) fn year_level(&self, year: u32, m: i64) -> i128
        requires { IsUsed self.now year m }
        ensures value { result ≡ predicted_year_level self.now.book self.now.station m year }
        ensures size { unsigned_abs result ≤ 11 * 10 ^ 18 }
    {
        mean_level(self.datum) + i128::from(self.year_heights(year, m))
    }

    /// Returns the approximate level at minute `m` by the constants of the year with index `year` (0
    /// for the book's first year), in billionths of a millionth of the station's unit.
    #[inline(always)]
    pub(super) fn approximate_year_level(&self, year: u32, m: i64) -> i128
        requires { IsUsed self.now year m }
        ensures value { result ≡ approximate_year_level self.now.book self.now.station m year }
        ensures size { unsigned_abs result ≤ 12 * 10 ^ 18 }
    {
        let at = self.waves_at(year, m);
        mean_level(self.datum) + in_billionths(approximate_heights(at.waves, at.minutes))
    }

    /// Returns the approximate slope at minute `m` by the constants of the year with index `year` (0
    /// for the book's first year), in billionths of a millionth of the station's unit a minute,
    /// multiplied by 34,377,467,708 (the units of angle in a radian).
    #[inline(always)]
    pub(super) fn approximate_year_slope(&self, year: u32, m: i64) -> i128
        requires { IsUsed self.now year m }
        ensures value { result ≡ approximate_year_slope self.now.book self.now.station m year }
        ensures size { unsigned_abs result ≤ 2 * 10 ^ 26 }
    {
        let at = self.waves_at(year, m);
        -in_fall_units(approximate_falls(at.waves, at.minutes))
    }

    /// Returns the slope at minute `m` by the constants of the year with index `year` (0 for the book's
    /// first year), in billionths of a millionth of the station's unit a minute, multiplied by
    /// 34,377,467,708 (the units of angle in a radian).
    pub(super) fn year_slope(&self, year: u32, m: i64) -> i128
        requires { IsUsed self.now year m }
        ensures value { result ≡ predicted_year_slope self.now.book self.now.station m year }
        ensures size { unsigned_abs result ≤ 10 ^ 26 }
    {
        let at = self.waves_at(year, m);
        -falls(at.waves, at.minutes)
    }

    /// Returns the sum of the heights of the waves of the year with index `year` (0 for the book's
    /// first year), at minute `m`: the level less the mean level, in billionths of a millionth of the
    /// station's unit.
    pub(super) fn year_heights(&self, year: u32, m: i64) -> i64
        requires { IsUsed self.now year m }
        ensures value { result ≡ heights_of (minutes_into self.now.book.first_year year m) (waves_of self.now.book self.now.station year) }
        ensures size { unsigned_abs result ≤ 10 ^ 18 }
    {
        let at = self.waves_at(year, m);
        heights(at.waves, at.minutes)
    }

    /// Returns the stored waves of the year with index `year` (0 for the book's first year), and minute
    /// `m`, counted from an hour before the year's start.
    #[inline(always)]
    fn waves_at(&self, year: u32, m: i64) -> WavesAt<'_>
        requires { IsUsed self.now year m }
        ensures waves { result.waves.now ≡ filter is_present (waves_of self.now.book self.now.station year) }
        ensures minutes { result.minutes ≡ minutes_into self.now.book.first_year year m }
        ensures time { result.minutes ≤ 600000 }
        ensures amount { amount_of result.waves.now ≤ 10 ^ 9 }
        ensures steepness { steepness_of result.waves.now ≤ 10 ^ 17 }
        ensures times { AreTimes self.now.book }
    {
        let year = &self.years[year as usize];
        WavesAt {
            waves: year.waves.as_slice(),
            minutes: year.minutes_to(m),
        }
    }
}
