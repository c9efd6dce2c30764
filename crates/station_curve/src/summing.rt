//! Sums over the waves of a year.

ghost use Rattle.std.specs.Prelude.{◌≡◌, ◌*◌, ◌^◌, ◌≤◌, pos, ◌*ℤ◌, unsigned_abs};
ghost use Rattle.station_curve.specs.Waves.{heights_of, falls_of, amount_of, steepness_of};
ghost use Rattle.station_curve.specs.Approximate.{approximate_heights_of, approximate_falls_of};

use crate::wave::Wave;

/// The ratio of a millionth to a billionth of a millionth.
const BILLION: i128 = 1_000_000_000;

/// The unit of an approximate height, in billionths of a millionth.
const HEIGHT_UNIT: i128 = 1 << 15;

/// The unit of an approximate fall, in a fall's unit.
const FALL_UNIT: i128 = 1 << 24;

/// Returns the sum of the heights of `waves` (what each wave adds to the level) at `minutes`, the
/// time in minutes counted from one hour before the year's start, from 0 to 600,000. The absolute
/// values of the amplitudes sum to at most 10^9 millionths of the station's unit. The result is in
/// billionths of a millionth of it, at most 10^18 in absolute value.
pub fn heights(waves: &[Wave], minutes: u64) -> i64
    requires time { minutes ≤ 600000 }
    requires amount { amount_of waves.now ≤ 10 ^ 9 }
    ensures value { result ≡ heights_of minutes waves.now }
    ensures size { unsigned_abs result ≤ 10 ^ 18 }
{
    let mut sum = 0;
    for wave in waves {
        sum += wave.height(minutes);
    }
    sum
}

/// Returns the sum of the falls of `waves` (a wave's fall is what it adds to the slope, negated) at
/// `minutes`, the time in minutes counted from one hour before the year's start, from 0 to 600,000.
/// The absolute values of the amplitudes times speeds sum to at most 10^17. The result is in the
/// station's unit a minute, multiplied by 10^15 * 34,377,467,708 (the units of angle in a radian),
/// at most 10^26 in absolute value.
pub fn falls(waves: &[Wave], minutes: u64) -> i128
    requires time { minutes ≤ 600000 }
    requires steepness { steepness_of waves.now ≤ 10 ^ 17 }
    ensures value { result ≡ falls_of minutes waves.now }
    ensures size { unsigned_abs result ≤ 10 ^ 26 }
{
    let mut sum = 0;
    for wave in waves {
        sum += wave.fall(minutes);
    }
    sum
}

/// Returns the sum of the approximate heights of `waves` (what each wave adds to the level) at
/// `minutes`, the time in minutes counted from one hour before the year's start, from 0 to 600,000.
/// The absolute values of the amplitudes sum to at most 10^9 millionths. Multiplied by 2^15, the
/// result is in billionths of a millionth of the station's unit. It is at most 30,518 * 10^9 in
/// absolute value (30,518 is 10^9 / 2^15, rounded up).
#[inline(never)]
pub fn approximate_heights(waves: &[Wave], minutes: u64) -> i64
    requires time { minutes ≤ 600000 }
    requires amount { amount_of waves.now ≤ 10 ^ 9 }
    ensures value { result ≡ approximate_heights_of minutes waves.now }
    ensures size { unsigned_abs result ≤ 30518 * 10 ^ 9 }
{
    let mut sum = 0;
    for wave in waves {
        sum += wave.approximate_height(minutes);
    }
    sum
}

/// Returns the sum of the approximate falls of `waves` (a wave's fall is what it adds to the slope,
/// negated) at `minutes`, the time in minutes counted from one hour before the year's start, from 0
/// to 600,000. The absolute values of the amplitudes times speeds sum to at most 10^17. Multiplied
/// by 2^24, the result is in the station's unit a minute, multiplied by 10^15 * 34,377,467,708 (the
/// units of angle in a radian). It is at most 6 * 10^18 in absolute value.
#[inline(never)]
pub fn approximate_falls(waves: &[Wave], minutes: u64) -> i64
    requires time { minutes ≤ 600000 }
    requires steepness { steepness_of waves.now ≤ 10 ^ 17 }
    ensures value { result ≡ approximate_falls_of minutes waves.now }
    ensures size { unsigned_abs result ≤ 6 * 10 ^ 18 }
{
    let mut sum = 0;
    for wave in waves {
        sum += wave.approximate_fall(minutes);
    }
    sum
}

/// Returns `heights` multiplied by 2^15, which converts a sum of approximate heights (what each
/// wave adds to the level) to the unit of exact heights, billionths of a millionth (10^-15) of the
/// station's unit. `heights` is at most 30,518 * 10^9 in absolute value.
pub fn in_billionths(heights: i64) -> i128
    requires { unsigned_abs heights ≤ 30518 * 10 ^ 9 }
    ensures value { result ≡ pos (2 ^ 15) *ℤ heights }
    ensures size { unsigned_abs result ≤ 2 * 10 ^ 18 }
{
    HEIGHT_UNIT * i128::from(heights)
}

/// Returns `falls` multiplied by 2^24, which converts a sum of approximate falls (a wave's fall is
/// what it adds to the slope, negated) to the unit of exact falls: the station's unit a minute,
/// multiplied by 10^15 * 34,377,467,708 (the units of angle in a radian). `falls` is at most
/// 6 * 10^18 in absolute value.
pub fn in_fall_units(falls: i64) -> i128
    requires { unsigned_abs falls ≤ 6 * 10 ^ 18 }
    ensures value { result ≡ pos (2 ^ 24) *ℤ falls }
    ensures size { unsigned_abs result ≤ 2 * 10 ^ 26 }
{
    FALL_UNIT * i128::from(falls)
}

/// Returns `datum`, the mean level in millionths of the station's unit, at most 10^10 in absolute
/// value, converted to billionths of a millionth of the unit: `datum` multiplied by 10^9.
pub fn mean_level(datum: i64) -> i128
    requires { unsigned_abs datum ≤ 10 ^ 10 }
    ensures value { result ≡ pos (10 ^ 9) *ℤ datum }
    ensures size { unsigned_abs result ≤ 10 ^ 19 }
{
    BILLION * i128::from(datum)
}
