//! A constituent in one year at one station.

ghost use Rattle.std.specs.Prelude.{◌≡◌, ℕ, ◌*◌, ◌/◌, ◌^◌, ◌<◌, ◌≤◌, pos, ◌*ℤ◌, unsigned_abs};
ghost use Rattle.fixed_sine.specs.Circle.{circle};
ghost use Rattle.station_curve.specs.Waves.{WaveSpec, height_at, fall_at};
ghost use Rattle.station_curve.specs.Approximate.{binary_angle_after, binary_angle_ahead, approximate_height_at, approximate_fall_at};
ghost use Rattle.station_curve.specs.Sums.{height_rate_of, fall_rate_of};

use crate::year_sums::Sums;
use fixed_sine::{QUARTER_CIRCLE, approximate_sine, binary_angle_of, binary_angle_sine, step};
use std::marker::Model;

/// The unit of a speed in approximate falls, so that their sum fits 64 bits.
const COARSE_UNIT: u64 = 512;

/// A wave: one constituent at one station in one year. Products of its amplitude and speed, and its
/// angles one hour before the year begins, are prepared for fast sums.
#[derive(Drop)]
pub struct Wave {
    /// The amplitude in millionths of the station's unit.
    amplitude: i64,
    /// The speed in units of 1/600,000,000 degree a minute.
    speed: u64,
    /// The amplitude times the speed: in millionths of the station's unit times units of 1/600,000,000
    /// degree a minute.
    steepness: i64,
    /// The amplitude in millionths of the station's unit, times the speed in whole multiples of 2^9
    /// units of 1/600,000,000 degree a minute, rounded down.
    factor: i64,
    /// The speed in 2^-64 of a turn a minute.
    pace: u64,
    /// The phase an hour before the year begins, in 2^-64 of a turn.
    start: u64,
    /// `start` plus a quarter of a turn: the sine there is the cosine at `start`.
    ahead: u64,
}

impl Model for Wave {
    ghost use Rattle.fixed_sine.specs.BinaryAngle.{units_of};
    ghost use Rattle.station_curve.specs.Waves.{WaveSpec};
    ghost use Rattle.station_curve.specs.Workings.NumberRanges.{IsWave};

    ghost Value = { WaveSpec };

    ghost view = { λ w. record { amplitude = w.amplitude; speed = w.speed; phase = units_of w.start } };

    ghost invariant = { λ w. IsWave w.amplitude w.speed w.steepness w.factor w.pace w.start w.ahead };
}

impl Wave {
    /// Returns the wave with `amplitude` in millionths of the station's unit, at most 10^9 in
    /// absolute value; `speed` in units of 1/600,000,000 degree a minute, at most 3,600,000,000
    /// (six degrees a minute); and `phase`, the angle one hour before the year begins, in units of
    /// 1/600,000,000 degree, less than a full circle. `amplitude` times `speed` is at most 10^17 in
    /// absolute value.
    pub fn new(amplitude: i64, speed: u64, phase: u64) -> Wave
        requires amplitude { unsigned_abs amplitude ≤ 10 ^ 9 }
        requires speed { speed ≤ 3600000000 }
        requires steepness { unsigned_abs amplitude * speed ≤ 10 ^ 17 }
        requires phase { phase < circle }
        ensures { result ≡ record { amplitude = amplitude; speed = speed; phase = phase } }
    {
        let start = binary_angle_of(phase);
        Wave {
            amplitude,
            speed,
            steepness: amplitude * speed as i64,
            factor: amplitude * (speed / COARSE_UNIT) as i64,
            pace: binary_angle_of(speed),
            start,
            ahead: start.wrapping_add(QUARTER_CIRCLE),
        }
    }

    /// Returns the wave's height (what it adds to the level) at `minutes`, the time in minutes
    /// counted from one hour before the year's start, from 0 to 600,000. The height is in
    /// billionths of a millionth of the station's unit, and at most the amplitude in absolute
    /// value.
    pub fn height(&self, minutes: u64) -> i64
        requires { minutes ≤ 600000 }
        ensures value { result ≡ height_at minutes self.now }
        ensures size { unsigned_abs result ≤ 10 ^ 9 * unsigned_abs self.now.amplitude }
    {
        self.by_amplitude(binary_angle_sine(self.binary_angle_ahead(minutes)))
    }

    /// Returns the wave's fall (what it adds to the slope, negated) at `minutes`, the time in
    /// minutes counted from one hour before the year's start, from 0 to 600,000. The fall is in the
    /// station's unit a minute, multiplied by 10^15 * 34,377,467,708 (the units of angle in a
    /// radian). Its absolute value is at most 10^9 times that of amplitude times speed.
    pub fn fall(&self, minutes: u64) -> i128
        requires { minutes ≤ 600000 }
        ensures value { result ≡ fall_at minutes self.now }
        ensures size { unsigned_abs result
            ≤ 10 ^ 9 * (unsigned_abs self.now.amplitude * self.now.speed) }
    {
        self.by_steepness(binary_angle_sine(self.binary_angle_after(minutes)))
    }

    /// Returns the wave's approximate height (what it adds to the level) at `minutes`, the time in
    /// minutes counted from one hour before the year's start, from 0 to 600,000. Multiplied by
    /// 2^15, the result is in billionths of a millionth of the station's unit. It is at most 30,518
    /// (10^9 / 2^15, rounded up) times the amplitude in absolute value.
    pub fn approximate_height(&self, minutes: u64) -> i64
        requires { minutes ≤ 600000 }
        ensures value { result ≡ approximate_height_at minutes self.now }
        ensures size { unsigned_abs result ≤ 30518 * unsigned_abs self.now.amplitude }
    {
        self.by_amplitude(approximate_sine(self.binary_angle_ahead(minutes)))
    }

    /// Returns the wave's approximate fall (what it adds to the slope, negated) at `minutes`, the
    /// time in minutes counted from one hour before the year's start, from 0 to 600,000. Multiplied
    /// by 2^24, the result is in the station's unit a minute, multiplied by 10^15 * 34,377,467,708
    /// (the units of angle in a radian). It is at most 60 (10^9 / 2^24, rounded up) times amplitude
    /// times speed in absolute value.
    pub fn approximate_fall(&self, minutes: u64) -> i64
        requires { minutes ≤ 600000 }
        ensures value { result ≡ approximate_fall_at minutes self.now }
        ensures size { unsigned_abs result ≤ 60 * (unsigned_abs self.now.amplitude * self.now.speed) }
    {
        self.factor * approximate_sine(self.binary_angle_after(minutes))
    }

    /// Returns what the wave adds to the four sums over the waves of a year: to `amount` its
    /// amplitude, without sign; to `steep` the amplitude times its speed; to `near` and `far` these
    /// two, each times a bound on the change of its sine in a minute, which is at most 104,724,001
    /// billionths (for six degrees). The fields of [`Sums`] say the units.
    pub fn sums(&self) -> Sums
        ensures amount { result.amount ≡ pos (unsigned_abs self.now.amplitude) }
        ensures steep { result.steep ≡ pos (unsigned_abs self.now.amplitude * self.now.speed) }
        ensures near { result.near ≡ pos (height_rate_of self.now) }
        ensures near_size { height_rate_of self.now ≤ 104724001 * unsigned_abs self.now.amplitude }
        ensures far { result.far ≡ pos (fall_rate_of self.now) }
        ensures far_size { fall_rate_of self.now
            ≤ 104724001 * (unsigned_abs self.now.amplitude * self.now.speed) }
    {
        let step = i128::from(step(self.speed as i64));
        let amount = i128::from(self.amplitude.unsigned_abs());
        let steep = i128::from(self.steepness.unsigned_abs());
        Sums {
            amount,
            steep,
            near: amount * step,
            far: steep * step,
        }
    }

    /// Returns the wave's amplitude, in millionths of the station's unit, times `sine`.
    fn by_amplitude(&self, sine: i64) -> i64
        requires { unsigned_abs sine ≤ 10 ^ 9 }
        ensures value { result ≡ self.now.amplitude *ℤ sine }
        ensures size { (most : ℕ) → unsigned_abs sine ≤ most
            → unsigned_abs result ≤ most * unsigned_abs self.now.amplitude }
    {
        self.amplitude * sine
    }

    /// Returns the wave's amplitude, in millionths of the station's unit, times its speed, in units of
    /// 1/600,000,000 degree a minute, times `sine`.
    fn by_steepness(&self, sine: i64) -> i128
        requires { unsigned_abs sine ≤ 10 ^ 9 }
        ensures value { result ≡ (self.now.amplitude *ℤ pos self.now.speed) *ℤ sine }
        ensures size { (most : ℕ) → unsigned_abs sine ≤ most
            → unsigned_abs result ≤ most * (unsigned_abs self.now.amplitude * self.now.speed) }
    {
        i128::from(self.steepness) * i128::from(sine)
    }

    /// Returns the phase at `minutes`, the time in minutes counted from one hour before the year's
    /// start, in 2^-64 of a turn.
    fn binary_angle_after(&self, minutes: u64) -> u64
        requires { minutes ≤ 600000 }
        ensures { result ≡ binary_angle_after self.now minutes }
    {
        self.start.wrapping_add(self.pace.wrapping_mul(minutes))
    }

    /// Returns the phase at `minutes`, the time in minutes counted from one hour before the year's
    /// start, plus a quarter of a turn, in 2^-64 of a turn.
    fn binary_angle_ahead(&self, minutes: u64) -> u64
        requires { minutes ≤ 600000 }
        ensures { result ≡ binary_angle_ahead self.now minutes }
    {
        self.ahead.wrapping_add(self.pace.wrapping_mul(minutes))
    }
}
