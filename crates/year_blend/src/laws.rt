//! Theorems about years, positions, stretches and weights, and examples.

ghost use Rattle.std.specs.Prelude.{◌≡◌, ℕ, ◌+◌, ◌*◌, ◌<◌, ◌≤◌, ℤ, pos, negsuc, ◌+ℤ◌, ◌-ℤ◌, ◌≤ℤ◌, ◌<ℤ◌, ◌⊎◌, unsigned_abs};
ghost use Rattle.year_blend.specs.declared.parts.Place.{Place};
ghost use Rattle.year_blend.specs.declared.parts.Place.TheVariants.{Plain};
ghost use Rattle.year_blend.specs.Years.{year_start_of, IsYearInReach};
ghost use Rattle.year_blend.specs.Places.{AreYears, InDomain, IsPlaceOf, place_of, plain_end_of};
ghost use Rattle.year_blend.specs.declared.parts.Stretch.{Stretch};
ghost use Rattle.year_blend.specs.declared.spanning.TheConstants.{LONGEST_SPAN};
ghost use Rattle.year_blend.specs.Stretches.{IsStretchOf, stretch_of};
ghost use Rattle.year_blend.specs.Weights.{weight_of, weight_slope_of, total_weight, IsWithinHourOfNewYear};

/// Proves for each UTC year from 2 to 9300 that the next year starts 525,600 or 527,040 minutes (365 or
/// 366 days) later, and that the year's first minute, counted from 1970-01-01T00:00Z, is from
/// -1,035,067,680 to 3,855,208,320.
pub fn year_lengths()
    ensures lengths { (y : ℤ) → IsYearInReach y
        → ((year_start_of (y +ℤ pos 1) -ℤ year_start_of y) ≡ pos 525600)
        ⊎ ((year_start_of (y +ℤ pos 1) -ℤ year_start_of y) ≡ pos 527040) }
    ensures least { (y : ℤ) → IsYearInReach y → negsuc 1035067679 ≤ℤ year_start_of y }
    ensures most { (y : ℤ) → IsYearInReach y → year_start_of y ≤ℤ pos 3855208320 }
{}

/// Proves that each minute of `years` years from `first_year` on, and the first minute after them, has
/// exactly one position by the rule `IsPlaceOf`: in one year outside the blends, or in the blend at one
/// new year. `place_of` gives this position.
pub fn unique_places()
    ensures some { (first_year : ℤ) (years : ℕ) (m : ℤ) → AreYears first_year years → InDomain first_year years m
        → IsPlaceOf first_year years m (place_of first_year years m) }
    ensures one { (first_year : ℤ) (years : ℕ) (m : ℤ) → AreYears first_year years → InDomain first_year years m
        → (p : Place) → IsPlaceOf first_year years m p → p ≡ place_of first_year years m }
{}

/// Proves for a minute `m` in a year, outside the blends at new years, that `plain_end_of` the year
/// (its last minute outside the blend at the next new year) isn't before `m`, and that each minute
/// from `m` to it is in the same year, outside the blends.
pub fn plain_parts()
    ensures rest { (first_year : ℤ) (years : ℕ) (m later : ℤ) (year : ℕ) → AreYears first_year years → InDomain first_year years m
        → place_of first_year years m ≡ Plain year → m ≤ℤ later → later ≤ℤ plain_end_of first_year years year
        → InDomain first_year years later × (place_of first_year years later ≡ Plain year) }
    ensures end { (first_year : ℤ) (years : ℕ) (m : ℤ) (year : ℕ) → AreYears first_year years → InDomain first_year years m
        → place_of first_year years m ≡ Plain year → m ≤ℤ plain_end_of first_year years year }
{}

/// Proves that the minutes from `m` to `m + n`, both included, use the constants of exactly one year,
/// or of exactly one pair of years around a new year, by the rule `IsStretchOf`; `stretch_of` gives
/// which. `m` and `m + n` are in the years or the first minute after them, and `n` is at most
/// `LONGEST_SPAN` (1,024).
pub fn unique_stretches()
    ensures some { (first_year : ℤ) (years : ℕ) (m : ℤ) (n : ℕ) → AreYears first_year years → InDomain first_year years m
        → InDomain first_year years (m +ℤ pos n) → n ≤ LONGEST_SPAN → IsStretchOf first_year years m n (stretch_of first_year years m n) }
    ensures one { (first_year : ℤ) (years : ℕ) (m : ℤ) (n : ℕ) → AreYears first_year years → InDomain first_year years m
        → InDomain first_year years (m +ℤ pos n) → n ≤ LONGEST_SPAN
        → (s : Stretch) → IsStretchOf first_year years m n s → s ≡ stretch_of first_year years m n }
{}

/// Proves bounds on the weight of the later year in a blend, `x` minutes after the new year, from -60
/// to 60. The weight is from 0 to 4,147,200,000 (the total weight); its slope, the change of the weight
/// per minute, is from 0 to 64,800,000. From one minute to the next the weight changes by at most
/// 64,800,000, and the slope by at most 1,663,000.
pub fn weight_steps()
    ensures weight { (x : ℤ) → IsWithinHourOfNewYear x → (pos 0 ≤ℤ weight_of x) × (weight_of x ≤ℤ pos total_weight) }
    ensures slope { (x : ℤ) → IsWithinHourOfNewYear x → (pos 0 ≤ℤ weight_slope_of x) × (weight_slope_of x ≤ℤ pos 64800000) }
    ensures weight_step { (x : ℤ) → IsWithinHourOfNewYear x → x <ℤ pos 60
        → unsigned_abs (weight_of (x +ℤ pos 1) -ℤ weight_of x) ≤ 64800000 }
    ensures slope_step { (x : ℤ) → IsWithinHourOfNewYear x → x <ℤ pos 60
        → unsigned_abs (weight_slope_of (x +ℤ pos 1) -ℤ weight_slope_of x) ≤ 1663000 }
{}

/// Proves positions of minutes in the years 1999 (index 0) to 2001 (index 2); times are UTC. The first
/// minute of 1999 is in 1999 (`Plain 0`), and 23:00 on 31 December 1999 is too. 23:01, 59 minutes
/// before the new year (`negsuc 58` is -59), is the first minute of the blend at the start of 2000, and
/// 00:59 on 1 January 2000 the last. 01:00 is in 2000 (`Plain 1`). The first minute after 2001 is in
/// 2001.
pub fn worked_places()
    ensures first { place_of (pos 1999) 3 (pos 15252480) ≡ Place.Plain 0 }
    ensures hour_before { place_of (pos 1999) 3 (pos 15778020) ≡ Place.Plain 0 }
    ensures first_blended { place_of (pos 1999) 3 (pos 15778021) ≡ Place.Blend 1 (negsuc 58) }
    ensures new_year { place_of (pos 1999) 3 (pos 15778080) ≡ Place.Blend 1 (pos 0) }
    ensures last_blended { place_of (pos 1999) 3 (pos 15778139) ≡ Place.Blend 1 (pos 59) }
    ensures hour_after { place_of (pos 1999) 3 (pos 15778140) ≡ Place.Plain 1 }
    ensures last { place_of (pos 1999) 3 (pos 16830720) ≡ Place.Plain 2 }
{}

/// Proves examples of the years, out of 1999 (index 0) to 2001 (index 2), whose constants apply to
/// consecutive minutes: the last is 1,024, 1,000 or 1 minutes after the first. Times are UTC. From
/// 05:56 to 23:00 on 31 December 1999 they are in 1999 (`Within 0`). From 05:57 to 23:01 they reach
/// the blend at the start of 2000 (`Across 1`), as do the minutes from 16:00 to 08:40 on 1 January
/// 2000, and from 00:59 to 01:00. From 01:00 on they are in 2000, and up to the first minute of
/// 2002 in 2001.
pub fn worked_stretches()
    ensures up_to_the_end { stretch_of (pos 1999) 3 (pos 15776996) 1024 ≡ Stretch.Within 0 }
    ensures past_the_end { stretch_of (pos 1999) 3 (pos 15776997) 1024 ≡ Stretch.Across 1 }
    ensures over_the_blend { stretch_of (pos 1999) 3 (pos 15777600) 1000 ≡ Stretch.Across 1 }
    ensures last_blended { stretch_of (pos 1999) 3 (pos 15778139) 1 ≡ Stretch.Across 1 }
    ensures after_the_blend { stretch_of (pos 1999) 3 (pos 15778140) 1024 ≡ Stretch.Within 1 }
    ensures up_to_the_last { stretch_of (pos 1999) 3 (pos 16829696) 1024 ≡ Stretch.Within 2 }
{}

/// Proves examples that another program computed: the first minutes of 1970 and 2000, since
/// 1970-01-01T00:00Z; the weight of the later year in a blend, of 4,147,200,000 in all, at -60, 0, 30
/// and 60 minutes after the new year (`negsuc 59` is -60); and the weight's slope, its change per
/// minute, at -60, 0 and 60.
#[tactic(auto, unfolding(crate::specs::Weights::weight_of, crate::specs::Weights::weight_slope_of))]
pub fn sample_weights()
    ensures epoch { year_start_of (pos 1970) ≡ pos 0 }
    ensures leap_century { year_start_of (pos 2000) ≡ pos 15778080 }
    ensures first_weight { weight_of (negsuc 59) ≡ pos 0 }
    ensures middle_weight { weight_of (pos 0) ≡ pos 2073600000 }
    ensures last_weight { weight_of (pos 60) ≡ pos total_weight }
    ensures first_slope { weight_slope_of (negsuc 59) ≡ pos 0 }
    ensures half_an_hour { weight_of (pos 30) ≡ pos 3717900000 }
    ensures middle_slope { weight_slope_of (pos 0) ≡ pos 64800000 }
    ensures last_slope { weight_slope_of (pos 60) ≡ pos 0 }
{}

/// Proves that `LONGEST_SPAN`, the greatest number of minutes from the first minute of a stretch
/// (consecutive minutes) to its last one, is 1,024.
pub fn worked_limits()
    ensures minutes { LONGEST_SPAN ≡ 1024 }
{}
