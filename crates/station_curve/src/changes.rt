//! Theorems about the level and the slope by one year's constants.

ghost use Rattle.std.specs.Prelude.{ℕ, ◌+◌, ◌*◌, ◌^◌, ◌<◌, ◌≤◌, ℤ, pos, ◌+ℤ◌, ◌-ℤ◌, ◌≤ℤ◌, unsigned_abs};
ghost use Rattle.harmonics_book.specs.declared.book.Station.{Station};
ghost use Rattle.harmonics_book.specs.declared.book.Book.{Book};
ghost use Rattle.harmonics_book.specs.Books.{IsBook};
ghost use Rattle.year_blend.specs.Places.{start_of};
ghost use Rattle.station_curve.specs.Waves.{amount_of, steepness_of};
ghost use Rattle.station_curve.specs.Sums.{near_of, far_of, sums_of};
ghost use Rattle.station_curve.specs.Limits.{AreWithinLimits};
ghost use Rattle.station_curve.specs.Curves.{waves_of, IsWithinLimits};
ghost use Rattle.station_curve.specs.Schureman.{predicted_year_level, predicted_year_slope};

/// Proves bounds by the constants of the year with index `year` (0 for the book's first year), at
/// each minute `m` from one hour before the year's start on. From `m` to the next minute the level
/// changes by at most `near_of` the year's waves: the sum of each amplitude times a bound on the
/// change of its wave's sine in a minute. The slope changes by at most `far_of` the waves, the same
/// sum with amplitudes times speeds. Levels are in billionths of a millionth of the station's unit,
/// slopes in the station's unit a minute, multiplied by 10^15 * 34,377,467,708 (the units of angle
/// in a radian).
pub fn year_changes()
    ensures level { (b : Book) (s : Station) (m : ℤ) (year : ℕ) → IsBook b → pos 0 ≤ℤ ((m -ℤ start_of b.first_year year) +ℤ pos 60)
        → unsigned_abs (predicted_year_level b s (m +ℤ pos 1) year -ℤ predicted_year_level b s m year) ≤ near_of (waves_of b s year) }
    ensures slope { (b : Book) (s : Station) (m : ℤ) (year : ℕ) → IsBook b → pos 0 ≤ℤ ((m -ℤ start_of b.first_year year) +ℤ pos 60)
        → unsigned_abs (predicted_year_slope b s (m +ℤ pos 1) year -ℤ predicted_year_slope b s m year) ≤ far_of (waves_of b s year) }
{}

/// Proves bounds by the constants of the year with index `year` (0 for the book's first year).
/// `amount_of` is the sum of the absolute values of the year's amplitudes, and `steepness_of` the
/// sum of amplitude times speed. A level is at most 10^9 times the sum of `amount_of` and the mean
/// level in absolute value, and a slope 10^9 times `steepness_of`; the levels of two years differ
/// by at most 10^9 times the sum of both `amount_of`, because the mean level cancels. If the
/// station is within the limits of a curve, each year's four sums are too: these two, and the
/// bounds on the change of the level and the slope in a minute. Levels are in billionths of a
/// millionth of the station's unit, slopes in the station's unit a minute, multiplied by
/// 10^15 * 34,377,467,708 (the units of angle in a radian).
pub fn year_sizes()
    ensures level { (b : Book) (s : Station) (m : ℤ) (year : ℕ) →
        unsigned_abs (predicted_year_level b s m year) ≤ 10 ^ 9 * (unsigned_abs s.datum + amount_of (waves_of b s year)) }
    ensures slope { (b : Book) (s : Station) (m : ℤ) (year : ℕ) →
        unsigned_abs (predicted_year_slope b s m year) ≤ 10 ^ 9 * steepness_of (waves_of b s year) }
    ensures difference { (b : Book) (s : Station) (m : ℤ) (year other : ℕ) →
        unsigned_abs (predicted_year_level b s m year -ℤ predicted_year_level b s m other)
        ≤ 10 ^ 9 * (amount_of (waves_of b s year) + amount_of (waves_of b s other)) }
    ensures sums { (b : Book) (s : Station) (year : ℕ) → IsWithinLimits b s → year < b.years → AreWithinLimits (sums_of (waves_of b s year)) }
{}
