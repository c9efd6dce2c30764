//! The greatest sums of any year.

ghost use Rattle.std.specs.Prelude.{◌≡◌, ℕ, ◌<◌, length, pos, slice_index_or};
ghost use Rattle.station_curve.specs.declared.years.Year.{Year};
ghost use Rattle.station_curve.specs.Errors.{greatest_of};

use crate::years::Year;

/// The greatest sum of a station's amplitudes in a year, and the greatest sum of amplitude times
/// speed, which can be in another year. Each is 0 if there is no year.
#[derive(Clone, Copy)]
pub struct Greatest {
    /// The greatest sum over a year's waves of the absolute value of the amplitude, in millionths of
    /// the station's unit.
    pub amount: i128,
    /// The greatest sum over a year's waves of the absolute value of the amplitude, in millionths of
    /// the station's unit, multiplied by the speed, in units of 1/600,000,000 degree a minute.
    pub steepness: i128,
}

/// Returns the greatest sum of amplitudes (`amount`) and the greatest sum of amplitude times speed
/// (`steep`) of any of `years`; each is 0 if there is no year. In each clause, `value k` is the sum
/// of the year with index `k`.
pub fn greatest_of_years(years: &[Year]) -> Greatest
    ensures amount { (value : ℕ → ℕ)
        → ((k : ℕ) (d : Year) → k < length years.now → (slice_index_or years.now k d).sums.amount ≡ pos (value k))
        → result.amount ≡ pos (greatest_of value (length years.now)) }
    ensures steepness { (value : ℕ → ℕ)
        → ((k : ℕ) (d : Year) → k < length years.now → (slice_index_or years.now k d).sums.steep ≡ pos (value k))
        → result.steepness ≡ pos (greatest_of value (length years.now)) }
{
    let mut amount = 0_i128;
    let mut steepness = 0_i128;
    for year in years {
        amount = amount.max(year.sums.amount);
        steepness = steepness.max(year.sums.steep);
    }
    Greatest { amount, steepness }
}
