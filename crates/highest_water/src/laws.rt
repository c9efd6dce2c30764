//! Theorems about highest waters, the cells that show them, and the verdicts of their check.

ghost use Rattle.std.specs.Prelude.{◌≡◌, ℕ, ◌+◌, ◌-◌, ◌/◌, ◌<◌, ◌≤◌, ℤ, pos, ◌+ℤ◌, ◌≤ℤ◌, ◌<ℤ◌, true, false, [], ◌∷◌, ◌++◌, length};
ghost use Rattle.curve_law.specs.declared.quiet.TheConstants.{MOST_MINUTES};
ghost use Rattle.curve_law.specs.CurveSpec.{CurveSpec, IsSpan, IsLawful, at_minutes};
ghost use Rattle.highest_water.specs.declared.peak.Peak.{Peak};
ghost use Rattle.highest_water.specs.declared.peak_cell.PeakCell.{PeakCell};
ghost use Rattle.highest_water.specs.declared.verdict.PeakVerdict.{PeakVerdict};
ghost use Rattle.highest_water.specs.Peaks.{IsHighest, highest_minute};
ghost use Rattle.highest_water.specs.Covers.{all_minutes, is_under, peak_split, peak_cover, peak_of};
ghost use Rattle.highest_water.specs.Verdicts.{peak_verdict};

/// Proves that a span of at least one minute has a highest water (the first minute with the
/// greatest value, found by looking at each minute, and this value), and that it has no other.
pub fn spans_have_one_highest_water()
    ensures some { (c : CurveSpec) (a : ℤ) (n : ℕ) → 1 ≤ n →
        IsHighest c a (a +ℤ pos n) (highest_minute c a n) (c.track.value (highest_minute c a n)) }
    ensures one { (c : CurveSpec) (begin end at value other_at other_value : ℤ) →
        IsHighest c begin end at value → IsHighest c begin end other_at other_value →
        (at ≡ other_at) × (value ≡ other_value) }
{}

/// Proves how a block of `n` minutes from minute `a` on is cut into cells (`peak_split`) for a
/// highest water with the minute `at` and this value. A single minute, or a block under the highest
/// water, is one cell. Any other block is cut into the cells of its first half, `n / 2` minutes
/// rounded down, followed by the cells of the rest.
pub fn blocks_are_halved()
    ensures one_minute { (c : CurveSpec) (at value a : ℤ) → peak_split c at value a 1 ≡ PeakCell.Single ∷ [] }
    ensures under { (c : CurveSpec) (at value a : ℤ) (n : ℕ) → is_under c at value a n ≡ true →
        peak_split c at value a n ≡ PeakCell.Under n ∷ [] }
    ensures halves { (c : CurveSpec) (at value a : ℤ) (n : ℕ) → 2 ≤ n → is_under c at value a n ≡ false →
        peak_split c at value a n
        ≡ peak_split c at value a (n / 2) ++ peak_split c at value (a +ℤ pos (n / 2)) (n - n / 2) }
{}

/// Proves how a span of `n` minutes from minute `a` on is cut into cells (`peak_cover`) for a
/// highest water with the minute `at` and this value. A span of no minutes has no cells. A span of
/// at most 1,024 minutes is one block. From a longer span the first 1,024 minutes are cut off as a
/// block, and the rest is cut in the same way.
pub fn spans_are_cut_into_blocks()
    ensures no_minute { (c : CurveSpec) (at value a : ℤ) → peak_cover c at value a 0 ≡ [] }
    ensures last_block { (c : CurveSpec) (at value a : ℤ) (n : ℕ) → n ≤ MOST_MINUTES →
        peak_cover c at value a n ≡ peak_split c at value a n }
    ensures block { (c : CurveSpec) (at value a : ℤ) (n : ℕ) → MOST_MINUTES < n →
        peak_cover c at value a n
        ≡ peak_split c at value a MOST_MINUTES
        ++ peak_cover c at value (a +ℤ pos MOST_MINUTES) (n - MOST_MINUTES) }
{}

/// Proves for `n` minutes from minute `a` on that are under the point of the minute `at` and
/// `value` (`is_under`): none of them has a value greater than `value`, none of them before `at`
/// has an equal value, and `at` isn't one of them.
pub fn under_cells_hold_nothing_higher()
    ensures greatest { (c : CurveSpec) (at value a : ℤ) (n : ℕ) → IsLawful c → IsSpan c a n →
        is_under c at value a n ≡ true → (m : ℤ) → a ≤ℤ m → m <ℤ (a +ℤ pos n) → c.track.value m ≤ℤ value }
    ensures first { (c : CurveSpec) (at value a : ℤ) (n : ℕ) → IsLawful c → IsSpan c a n →
        is_under c at value a n ≡ true → (m : ℤ) → a ≤ℤ m → m <ℤ (a +ℤ pos n) → m <ℤ at →
        c.track.value m <ℤ value }
    ensures excludes_at { (c : CurveSpec) (at value a : ℤ) (n : ℕ) → is_under c at value a n ≡ true →
        a ≤ℤ at → (a +ℤ pos n) ≤ℤ at }
{}

/// Proves for any peak, however it was made: if the check accepts it for a span, its minute and
/// value are the span's highest water, as an evaluation of each minute finds it.
pub fn accepted_highest_waters_are_right()
    ensures highest { (c : CurveSpec) (a : ℤ) (n : ℕ) (peak : Peak) → IsLawful c → IsSpan c a n →
        peak_verdict c a n peak ≡ PeakVerdict.Accepted → IsHighest c a (a +ℤ pos n) peak.at peak.value }
    ensures looked { (c : CurveSpec) (a : ℤ) (n : ℕ) (peak : Peak) → IsLawful c → IsSpan c a n →
        peak_verdict c a n peak ≡ PeakVerdict.Accepted →
        (peak.at ≡ highest_minute c a n) × (peak.value ≡ c.track.value (highest_minute c a n)) }
{}

/// Proves what is true of the cells that are made for a span by halving its blocks until each part
/// is a single minute or under the point of the minute `at` and its value (`peak_cover`). They have
/// as many minutes as the span, and there are no more cells than minutes. With these cells the
/// check accepts the span's highest water.
pub fn covers_are_accepted()
    ensures minutes { (c : CurveSpec) (at value a : ℤ) (n : ℕ) → all_minutes (peak_cover c at value a n) ≡ n }
    ensures count_bound { (c : CurveSpec) (at value a : ℤ) (n : ℕ) → length (peak_cover c at value a n) ≤ n }
    ensures accepted { (c : CurveSpec) (at value a : ℤ) (n : ℕ) → IsHighest c a (a +ℤ pos n) at value →
        peak_verdict c a n (record { at = at; value = value; cells = peak_cover c at value a n })
        ≡ PeakVerdict.Accepted }
    ensures peak { (c : CurveSpec) (a : ℤ) (n : ℕ) → 1 ≤ n →
        peak_verdict c a n (peak_of c a n) ≡ PeakVerdict.Accepted }
{}

/// Proves for two curves that have the same values and rates, and differ only in their first and
/// last minute: a span has the same highest water with the same cells for both (`peak_of`), and the
/// verdict on any claimed highest water is the same.
pub fn highest_waters_are_those_of_more_minutes()
    ensures peak { (c : CurveSpec) (first last a : ℤ) (n : ℕ) → peak_of (at_minutes first last c) a n ≡ peak_of c a n }
    ensures verdicts { (c : CurveSpec) (first last a : ℤ) (n : ℕ) (peak : Peak) →
        peak_verdict (at_minutes first last c) a n peak ≡ peak_verdict c a n peak }
{}
