//! A curve for tests with the values of a straight line.

ghost use Rattle.std.specs.Prelude.{◌≡◌, ◌^◌, ◌≤◌, unsigned_abs, pos, ◌+ℤ◌, ◌-ℤ◌, ◌≤ℤ◌, if◌then◌else◌};

use crate::curve::Curve;
use crate::kind::Kind;

/// A curve for tests: its value rises or falls by 1 each minute, over the minutes from -1,000,000
/// to 1,000,000, both included. The level at a minute is the minute's number. The bound on the
/// change in a minute is chosen by the caller, and each approximate value is 1 greater than the
/// value.
#[derive(Drop)]
pub struct Line {
    start: i64,
    falls: bool,
    rate: i64,
    evaluated: u64,
    ghost in_range: { unsigned_abs start ≤ 10 ^ 12 },
    ghost at_least_one: { pos 1 ≤ℤ rate },
    ghost small: { rate ≤ℤ pos (10 ^ 12) },
}

impl Line {
    ghost use Rattle.curve_law.specs.Samples.{line_model};

    /// Returns the line with the value `start` (at most 10^12 in size) at minute 0, which falls by
    /// 1 each minute if `falls` is true and otherwise rises by 1. `rate`, from 1 to 10^12, is its
    /// bound on the change in a minute. The line hasn't been evaluated yet.
    pub fn new(start: i64, falls: bool, rate: i64) -> Line
        requires in_range { unsigned_abs start ≤ 10 ^ 12 }
        requires at_least_one { pos 1 ≤ℤ rate }
        requires small { rate ≤ℤ pos (10 ^ 12) }
        ensures { ⟦<Line as Curve>⟧.state result ≡ record { curve_model = line_model start falls rate; count = 0 } }
    {
        Line {
            start,
            falls,
            rate,
            evaluated: 0,
        }
    }
}

impl Curve for Line {
    ghost use Rattle.curve_law.specs.Samples.{line_model};
    ghost use Rattle.curve_law.specs.Workings.SampleLaws.{line-lawful, line-close, one_is_narrow};

    ghost state = { λ l. record { curve_model = line_model l.start l.falls l.rate; count = l.evaluated } };

    ghost lawful = { λ l. line-lawful l.start l.falls l.rate l.in_range l.at_least_one l.small };

    ghost narrow = { λ _. one_is_narrow };

    ghost close = { λ l m _. line-close l.start l.falls l.rate m };

    fn first(&self) -> i64 {
        -1_000_000
    }

    fn last(&self) -> i64 {
        1_000_000
    }

    fn value(&mut self, m: i64) -> i128 {
        self.evaluated += 1;
        height(self.start, self.falls, m) as i128
    }

    fn approximate_value(&mut self, m: i64) -> i128 {
        self.evaluated += 1;
        height(self.start, self.falls, m) as i128 + 1
    }

    fn exact_value(&self, m: i64, _approximate_value: i128) -> i128 {
        height(self.start, self.falls, m) as i128
    }

    fn error(&self) -> i128 {
        1
    }

    fn rate(&self, _a: i64, _n: u32) -> Option<i128> {
        Some(self.rate as i128)
    }

    fn note(&self, m: i64) -> i64 {
        m
    }

    fn rising(&self) -> Kind {
        Kind::Low
    }

    fn falling(&self) -> Kind {
        Kind::High
    }

    fn evaluations(&self) -> u64 {
        self.evaluated
    }
}

/// Returns the value at minute `m` of the line with the value `start` at minute 0.
fn height(start: i64, falls: bool, m: i64) -> i64
    requires start { unsigned_abs start ≤ 10 ^ 12 }
    requires minute { unsigned_abs m ≤ 10 ^ 6 }
    ensures value { result ≡ (if falls then start -ℤ m else start +ℤ m) }
    ensures size { unsigned_abs result ≤ 10 ^ 13 }
{
    if falls { start - m } else { start + m }
}
