//! Theorems about the table and the sine, and examples.

ghost use Rattle.std.specs.Prelude.{◌≡◌, ℕ, ◌+◌, ◌-◌, ◌*◌, ◌<◌, ◌≤◌, pos, negsuc, ◌+ℤ◌, ◌-ℤ◌, ◌*ℤ◌, ◌≤ℤ◌, unsigned_abs, ◌^◌};
ghost use Rattle.std.specs.Int.{int_rem_euclid};
ghost use Rattle.fixed_sine.specs.Circle.{circle};
ghost use Rattle.fixed_sine.specs.Table.{sine_at, rise, correction};
ghost use Rattle.fixed_sine.specs.Sine.{isin_of, icos_of};
ghost use Rattle.fixed_sine.specs.Rate.{step_of, RateLaw};
ghost use Rattle.fixed_sine.specs.BinaryAngle.{units_of};
ghost use Rattle.fixed_sine.specs.Approximate.{approximate_error, approximate_sine_of};

/// Proves two checks of the whole table of sines, which are in billionths: over each degree, the change
/// of the sine plus a quarter of the absolute value of the correction is at most 17,454,000; and the
/// squares of the sines of `k` and of `90 - k` degrees sum to 10^18 to within 2 * 10^9.
pub fn table_checks()
    ensures gains { (k : ℕ) → k < 90
        → ((pos 4 *ℤ rise k) +ℤ pos (unsigned_abs (correction k))) ≤ℤ pos (4 * 17454000) }
    ensures squares { (k : ℕ) → k ≤ 90 → unsigned_abs
        (((sine_at (pos k) *ℤ sine_at (pos k)) +ℤ (sine_at (pos (90 - k)) *ℤ sine_at (pos (90 - k)))) -ℤ pos (10 ^ 18)) ≤ 2 * 10 ^ 9 }
{}

/// Proves that the absolute value of each sine and cosine is at most 1,000,000,000 billionths, and that
/// `step_of w`, the bound on the sine's change over `w` units of 1/600,000,000 degree, is at most
/// 104,724,001 billionths for `w` up to six degrees.
pub fn sine_sizes()
    ensures sine { (p : ℕ) → p < circle → unsigned_abs (isin_of p) ≤ 1000000000 }
    ensures cosine { (p : ℕ) → p < circle → unsigned_abs (icos_of p) ≤ 1000000000 }
    ensures step { (w : ℕ) → w ≤ 3600000000 → step_of w ≤ 104724001 }
{}

/// Proves that if an angle changes by `w` units of 1/600,000,000 degree, its sine changes by at most
/// `step_of w` billionths (the value of [`crate::step`]), from each angle and for each `w` from 0 on.
pub fn sine_rates()
    ensures { (w : ℕ) → RateLaw w }
{}

/// Proves that the approximate sine of an angle in 2^-64 of a turn, multiplied by 2^15, differs from
/// the angle's sine by at most 400,000 billionths.
pub fn sines_are_approximate()
    ensures { (binary_angle : ℕ) → binary_angle < 2 ^ 64
        → unsigned_abs ((pos (2 ^ 15) *ℤ approximate_sine_of binary_angle) -ℤ isin_of (units_of binary_angle)) ≤ approximate_error }
{}

/// Proves examples that another program computed. `isin_of` and `icos_of` are sine and cosine in
/// billionths, rounded towards 0, of an angle in units of 1/600,000,000 degree: 300,000,000 is half a
/// degree, and 216,000,000,000 the full circle. `step_of w` bounds the change of the sine, in
/// billionths, over `w` units. The last three clauses reduce the angles -1, -216,000,000,000 and -2^127
/// to one full circle (`circle`). `negsuc n` is -(n + 1).
#[tactic(auto, unfolding(crate::specs::Table::sines, crate::specs::Table::sine_at, crate::specs::Table::correction, crate::specs::Sine::scaled_between, crate::specs::Sine::quarter_of, crate::specs::Sine::half_of, crate::specs::Sine::isin_of, crate::specs::Sine::icos_of, crate::specs::Rate::step_of))]
pub fn sample_sines()
    ensures at_zero { isin_of 0 ≡ pos 0 }
    ensures half_a_degree { isin_of 300000000 ≡ pos 8726535 }
    ensures fourteen_and_a_half { isin_of 8700000000 ≡ pos 250380003 }
    ensures thirty { isin_of 18000000000 ≡ pos 500000000 }
    ensures thirty_and_a_half { isin_of 18300000000 ≡ pos 507538361 }
    ensures near_ninety { isin_of 53700000000 ≡ pos 999961920 }
    ensures ninety { isin_of 54000000000 ≡ pos 1000000000 }
    ensures second_half { isin_of 108300000000 ≡ negsuc 8726534 }
    ensures unit_before_ninety { isin_of 53999999999 ≡ pos 999999999 }
    ensures unit_after_ninety { isin_of 54000000001 ≡ pos 999999999 }
    ensures a_hundred_eighty { isin_of 108000000000 ≡ pos 0 }
    ensures cut_to_zero { isin_of 108000034400 ≡ negsuc 999 }
    ensures two_hundred_seventy { isin_of 162000000000 ≡ negsuc 999999999 }
    ensures last_unit { isin_of 215999999999 ≡ pos 0 }
    ensures cosine_at_zero { icos_of 0 ≡ pos 1000000000 }
    ensures cosine_falls_past_ninety { icos_of 54000034400 ≡ negsuc 999 }
    ensures cosine_goes_round { icos_of 162000034400 ≡ pos 1000 }
    ensures no_step { step_of 0 ≡ 1 }
    ensures step_below_one { step_of 34 ≡ 1 }
    ensures step_above_one { step_of 35 ≡ 2 }
    ensures step_of_half_a_degree { step_of 300000000 ≡ 8727001 }
    ensures greatest_step { step_of 3600000000 ≡ 104724001 }
    ensures below_zero { int_rem_euclid (negsuc 0) (pos circle) ≡ pos 215999999999 }
    ensures turn_back { int_rem_euclid (negsuc 215999999999) (pos circle) ≡ pos 0 }
    ensures least_number { int_rem_euclid (negsuc (2 ^ 127 - 1)) (pos circle) ≡ pos 148115894272 }
{}

/// Proves approximate sines, in units of 2^15 billionths, of angles in 2^-64 of a turn; the names of
/// the clauses say the angles in degrees. Each is the sine in the middle of the part of the circle, one
/// of 8,192 equal ones, that contains the angle: so the result for 0 degrees isn't 0. `negsuc n` is -(n
/// + 1).
#[tactic(auto, unfolding(crate::specs::Table::sines, crate::specs::Table::sine_at, crate::specs::Table::correction, crate::specs::Sine::scaled_between, crate::specs::Sine::quarter_of, crate::specs::Sine::half_of, crate::specs::Sine::isin_of, crate::specs::Approximate::part_sine_of))]
pub fn worked_parts()
    ensures at_zero { approximate_sine_of 0 ≡ pos 12 }
    ensures forty_five_and_a_half { approximate_sine_of 2331463487093846108 ≡ pos 21769 }
    ensures before_ninety { approximate_sine_of (2 ^ 62 - 1) ≡ pos 30518 }
    ensures ninety { approximate_sine_of (2 ^ 62) ≡ pos 30518 }
    ensures ninety_and_a_half { approximate_sine_of 4637306496307540060 ≡ pos 30516 }
    ensures two_hundred_and_a_quarter { approximate_sine_of 10261001391000938087 ≡ negsuc 10555 }
    ensures two_hundred_seventy { approximate_sine_of (3 * 2 ^ 62) ≡ negsuc 30517 }
    ensures last_part { approximate_sine_of (2 ^ 64 - 1) ≡ negsuc 11 }
{}
