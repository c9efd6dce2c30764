//! Pseudorandom numbers that depend only on a seed.

ghost use Rattle.std.specs.Prelude.{◌≡◌, ◌<◌, ℕ};
ghost use Rattle.sample_tides.specs.Generator.{next, scaled_to};

use std::marker::Model;

/// The factor by which each step multiplies the state.
const MULTIPLIER: u64 = 6_364_136_223_846_793_005;

/// The number that each step then adds.
const INCREMENT: u64 = 1_442_695_040_888_963_407;

/// A generator of pseudorandom numbers: a linear congruential one with a state of 64 bits. In
/// contracts its value is the state.
#[derive(Drop)]
pub(crate) struct Generator {
    state: u64,
}

impl Model for Generator {
    ghost Value = { ℕ };

    ghost view = { λ g. g.state };
}

impl Generator {
    /// Returns a generator with the state `seed`.
    pub(crate) fn new(seed: u64) -> Generator
        ensures { result ≡ seed }
    {
        Generator { state: seed }
    }

    /// Advances the state once, and returns a number from 0 to `bound - 1`: the high 32 bits of the
    /// new state, scaled to this range. `bound` isn't 0.
    #[tactic(auto, unfolding(crate::specs::Generator::next, crate::specs::Generator::scaled_to))]
    pub(crate) fn draw(&mut self, bound: u32) -> u32
        requires { 0 < bound }
        ensures value { result ≡ scaled_to bound self.new }
        ensures within { result < bound }
        ensures after { self.new ≡ next self.old }
    {
        self.state = self.state.wrapping_mul(MULTIPLIER).wrapping_add(INCREMENT);
        scaled(self.state, bound)
    }
}

/// Returns the high 32 bits of `state`, scaled to the numbers from 0 to `bound - 1`.
#[tactic(auto, unfolding(crate::specs::Generator::scaled_to))]
fn scaled(state: u64, bound: u32) -> u32
    requires { 0 < bound }
    ensures value { result ≡ scaled_to bound state }
    ensures within { result < bound }
{
    (((state >> 32) * u64::from(bound)) >> 32) as u32
}
