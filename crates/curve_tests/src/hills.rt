//! A curve with two maxima.

ghost use Rattle.std.specs.Prelude.{◌≡◌, ◌^◌, ◌≤◌, unsigned_abs, pos, ◌≤ℤ◌};

use curve_law::{Curve, Kind};

/// A maximum of a curve for tests, with the value `value` at the minute `at`; the value falls by 1 with
/// each minute before or after it.
#[derive(Clone, Copy)]
pub struct Top {
    pub at: i64,
    pub value: i64,
}

/// A curve for tests with two maxima, from minute -1,000,000 to minute 1,000,000. Its value at a minute
/// is the greater of the two maxima's values there. Its rate, a bound on its change in a minute, may be
/// greater than necessary.
#[derive(Drop)]
pub struct Hills {
    first: Top,
    second: Top,
    rate: i64,
    evaluated: u64,
    ghost in_range: { unsigned_abs first.at ≤ 10 ^ 12 },
    ghost low: { unsigned_abs first.value ≤ 10 ^ 12 },
    ghost second_in_range: { unsigned_abs second.at ≤ 10 ^ 12 },
    ghost second_low: { unsigned_abs second.value ≤ 10 ^ 12 },
    ghost at_least_one: { pos 1 ≤ℤ rate },
    ghost small: { rate ≤ℤ pos (10 ^ 12) },
}

impl Hills {
    ghost use Rattle.curve_tests.specs.Workings.SampleLaws.{hills_model};

    /// Returns the curve with the maxima `first` and `second` and the rate `rate`, from 1 to 10^12,
    /// without evaluations so far. Minutes and values of the maxima are at most 10^12 in absolute
    /// value.
    pub fn new(first: Top, second: Top, rate: i64) -> Hills
        requires in_range { unsigned_abs first.at ≤ 10 ^ 12 }
        requires low { unsigned_abs first.value ≤ 10 ^ 12 }
        requires second_in_range { unsigned_abs second.at ≤ 10 ^ 12 }
        requires second_low { unsigned_abs second.value ≤ 10 ^ 12 }
        requires at_least_one { pos 1 ≤ℤ rate }
        requires small { rate ≤ℤ pos (10 ^ 12) }
        ensures { ⟦<Hills as Curve>⟧.state result
            ≡ record { curve_model = hills_model first.at first.value second.at second.value rate; count = 0 } }
    {
        Hills {
            first,
            second,
            rate,
            evaluated: 0,
        }
    }
}

impl Curve for Hills {
    ghost use Rattle.curve_tests.specs.Workings.SampleLaws.{hills_model, hills-lawful, hills-close, none_is_narrow};

    ghost state = { λ h. record { curve_model = hills_model h.first.at h.first.value h.second.at h.second.value h.rate; count = h.evaluated } };

    ghost lawful = { λ h. hills-lawful h.first.at h.first.value h.second.at h.second.value h.rate h.in_range h.low
        h.second_in_range h.second_low h.at_least_one h.small };

    ghost narrow = { λ _. none_is_narrow };

    ghost close = { λ h m _. hills-close h.first.at h.first.value h.second.at h.second.value h.rate m };

    fn first(&self) -> i64 {
        -1_000_000
    }

    fn last(&self) -> i64 {
        1_000_000
    }

    fn value(&mut self, m: i64) -> i128 {
        self.evaluated += 1;
        i128::from(height(self.first, m).max(height(self.second, m)))
    }

    fn approximate_value(&mut self, m: i64) -> i128 {
        self.value(m)
    }

    fn exact_value(&self, _m: i64, approximate_value: i128) -> i128 {
        approximate_value
    }

    fn error(&self) -> i128 {
        0
    }

    fn rate(&self, _a: i64, _n: u32) -> Option<i128> {
        Some(i128::from(self.rate))
    }

    fn note(&self, m: i64) -> i64 {
        m
    }

    fn rising(&self) -> Kind {
        Kind::Low
    }

    fn falling(&self) -> Kind {
        Kind::High
    }

    fn evaluations(&self) -> u64 {
        self.evaluated
    }
}

ghost use Rattle.highest_water.specs.Samples.{hill};

fn height(top: Top, m: i64) -> i64
    requires in_range { unsigned_abs top.at ≤ 10 ^ 12 }
    requires low { unsigned_abs top.value ≤ 10 ^ 12 }
    requires minute { unsigned_abs m ≤ 10 ^ 6 }
    ensures { result ≡ hill top.at top.value m }
{
    top.value - (m - top.at).abs()
}
