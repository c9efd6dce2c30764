//! Examples of drawn numbers and of lines, computed by another program.

ghost use Rattle.std.specs.Prelude.{◌≡◌, ◌-◌, ◌/◌, ◌^◌, [], codes};
ghost use Rattle.sample_tides.specs.Generator.{next, scaled_to};
ghost use Rattle.sample_tides.specs.File.{heading, constituent, value, meridian, level, datum, constants};

/// Proves examples of the generator: states after a given state, and the numbers that they give.
#[tactic(auto, unfolding(crate::specs::Generator::next, crate::specs::Generator::scaled_to))]
pub fn worked_draws()
    // The state after 0 is the increment, 1,442,695,040,888,963,407.
    ensures first_state { next 0 ≡ 1442695040888963407 }
    // The high 32 bits of the state after 0 are 335,903,614.
    ensures high_half { next 0 / 2 ^ 32 ≡ 335903614 }
    // The state after 0, scaled to the numbers below 40,000,000, gives 3,128,346.
    ensures first_draw { scaled_to 40000000 (next 0) ≡ 3128346 }
    // The state after the greatest one, 2^64 - 1, is computed modulo 2^64.
    ensures wraps { next (2 ^ 64 - 1) ≡ 13525302890751722018 }
    // The greatest state gives 24, the greatest number below 25.
    ensures greatest { scaled_to 25 (2 ^ 64 - 1) ≡ 24 }
{}

/// Proves the first lines of the sample file for seed 0, and examples of other lines, each from a
/// given state of the generator before it.
pub fn worked_lines()
    // The lines from the title to the first made-up constituent, C6, for seed 0.
    ensures first_lines { (constituent 6 (heading 0 (record { text = []; state = 0 }))).text
        ≡ codes "# sample tides, seed 0\n37\nM2 28.9841042\nS2 30.0000000\nN2 28.4397295\nK1 15.0410686\nO1 13.9430356\nC6 27.3128346\n" }
    // From the given state, an equilibrium argument from 0.00 to 359.99 degrees is drawn as 237.59.
    ensures argument { (value 0 36000 2 (record { text = []; state = 982119659650238624 })).text ≡ codes "237.59" }
    // From the given state, a node factor from 0.8000 to 1.2000 is drawn as 0.8523.
    ensures factor { (value 8000 4001 4 (record { text = []; state = 5109210755522538678 })).text ≡ codes "0.8523" }
    // From the given state, a meridian of 3 hours, a mean level of 6.11 feet, and an amplitude of
    // 2.67 feet and an epoch of 29.51 degrees for M2 are drawn.
    ensures station { (constants 1 (level (meridian (record { text = []; state = 8627585975969782428 })))).text
        ≡ codes "3:00 :UTC\n6.11 feet\nM2 2.67 29.51\n" }
    // Station 5 is a current; its datum isn't drawn, so the state is unchanged.
    ensures currents { datum 5 (record { text = []; state = 5 }) ≡ record { text = codes "0.00 knots\n"; state = 5 } }
    // Constituent 7 is absent; its line isn't drawn, so the state is unchanged.
    ensures absent { constants 7 (record { text = []; state = 5 }) ≡ record { text = codes "x 0 0\n"; state = 5 } }
{}
