//! A curve for tests with a value that crosses zero in each minute.

ghost use Rattle.std.specs.Prelude.{◌≡◌, ◌≤◌, unsigned_abs};
ghost use Rattle.curve_law.specs.Samples.{ripple};

use crate::curve::Curve;
use crate::kind::Kind;

/// A curve for tests: its value is 1 at even minutes and -1 at odd ones, over the minutes from
/// -1,000,000 to 1,000,000, both included. Its levels are 0, and it has no bound on its change.
/// Each approximate value is 0, so the exact value must decide whether a value is above 0.
#[derive(Default, Drop)]
pub struct Ripple {
    evaluated: u64,
}

impl Ripple {
    ghost use Rattle.curve_law.specs.Samples.{ripple_model};

    /// Returns the curve whose value is 1 at even minutes and -1 at odd ones, and whose approximate
    /// values are all 0. It hasn't been evaluated yet.
    pub fn new() -> Ripple
        ensures { ⟦<Ripple as Curve>⟧.state result ≡ record { curve_model = ripple_model; count = 0 } }
    {
        Ripple { evaluated: 0 }
    }
}

impl Curve for Ripple {
    ghost use Rattle.curve_law.specs.Samples.{ripple_model};
    ghost use Rattle.curve_law.specs.Workings.SampleLaws.{ripple-lawful, ripple-close, one_is_narrow};

    ghost state = { λ r. record { curve_model = ripple_model; count = r.evaluated } };

    ghost lawful = { λ _. ripple-lawful };

    ghost narrow = { λ _. one_is_narrow };

    ghost close = { λ _ m _. ripple-close m };

    fn first(&self) -> i64 {
        -1_000_000
    }

    fn last(&self) -> i64 {
        1_000_000
    }

    fn value(&mut self, m: i64) -> i128 {
        self.evaluated += 1;
        wave(m)
    }

    fn approximate_value(&mut self, _m: i64) -> i128 {
        self.evaluated += 1;
        0
    }

    fn exact_value(&self, m: i64, _approximate_value: i128) -> i128 {
        wave(m)
    }

    fn error(&self) -> i128 {
        1
    }

    fn rate(&self, _a: i64, _n: u32) -> Option<i128> {
        None
    }

    fn note(&self, _m: i64) -> i64 {
        0
    }

    fn rising(&self) -> Kind {
        Kind::MarkRising
    }

    fn falling(&self) -> Kind {
        Kind::MarkFalling
    }

    fn evaluations(&self) -> u64 {
        self.evaluated
    }
}

/// Returns the value at minute `m`: 1 if `m` is even, and otherwise -1.
fn wave(m: i64) -> i128
    ensures value { result ≡ ripple.track.value m }
    ensures size { unsigned_abs result ≤ 1 }
{
    if m.rem_euclid(2) == 0 { 1 } else { -1 }
}
