//! Theorems about the cells of a curve and the verdicts of a check on cells. The comment of
//! [`Cell`](crate::Cell) says what a cell is.

ghost use Rattle.std.specs.Prelude.{◌≡◌, ℕ, ◌+◌, ◌-◌, ◌/◌, ◌<◌, ◌≤◌, ℤ, pos, ◌+ℤ◌, true, false, List, [], ◌∷◌, ◌++◌, length};
ghost use Rattle.curve_law.specs.declared.cell.Cell.{Cell};
ghost use Rattle.curve_law.specs.declared.quiet.TheConstants.{MOST_MINUTES};
ghost use Rattle.curve_law.specs.declared.verdict.Verdict.{Verdict};
ghost use Rattle.curve_law.specs.Track.{side_at, has_event, plain_list};
ghost use Rattle.curve_law.specs.CurveSpec.{CurveSpec, IsSpan, IsLawful, at_minutes};
ghost use Rattle.curve_law.specs.Cells.{all_minutes, cell_events};
ghost use Rattle.curve_law.specs.Cover.{is_quiet, unit_cell, split, cover};
ghost use Rattle.curve_law.specs.Verdicts.{verdict};

/// Proves how a block of `n` minutes from minute `a` on is cut into cells (`split`). A single
/// minute is one cell, and so is a block that can be one quiet cell. Any other block is cut into
/// the cells of its first half, `n / 2` minutes rounded down, followed by the cells of the rest.
pub fn cells_are_halved()
    ensures one_minute { (c : CurveSpec) (a : ℤ) → split c a 1 ≡ unit_cell c.track a ∷ [] }
    ensures quiet { (c : CurveSpec) (a : ℤ) (n : ℕ) → is_quiet c a n ≡ true → split c a n ≡ Cell.Quiet n ∷ [] }
    ensures halves { (c : CurveSpec) (a : ℤ) (n : ℕ) → 2 ≤ n → is_quiet c a n ≡ false →
        split c a n ≡ split c a (n / 2) ++ split c (a +ℤ pos (n / 2)) (n - n / 2) }
{}

/// Proves how a span of `n` minutes from minute `a` on is cut into cells (`cover`). A span of no
/// minutes has no cells. A span of at most 1,024 minutes is one block. From a longer span the first
/// 1,024 minutes are cut off as a block, and the rest is cut in the same way.
pub fn spans_are_cut_into_blocks()
    ensures no_minute { (c : CurveSpec) (a : ℤ) → cover c a 0 ≡ [] }
    ensures last_block { (c : CurveSpec) (a : ℤ) (n : ℕ) → n ≤ MOST_MINUTES → cover c a n ≡ split c a n }
    ensures block { (c : CurveSpec) (a : ℤ) (n : ℕ) → MOST_MINUTES < n →
        cover c a n ≡ split c a MOST_MINUTES ++ cover c (a +ℤ pos MOST_MINUTES) (n - MOST_MINUTES) }
{}

/// Proves that the values at all minutes of a quiet cell and at its end (the minute after its last)
/// are on the same side of zero as the value at the cell's first minute. So no event is after any
/// minute of the cell.
pub fn quiet_cells_have_no_event()
    ensures sides { (c : CurveSpec) (a : ℤ) (n : ℕ) → IsLawful c → IsSpan c a n → is_quiet c a n ≡ true →
        (k : ℕ) → k ≤ n → side_at c.track (a +ℤ pos k) ≡ side_at c.track a }
    ensures no_event { (c : CurveSpec) (a : ℤ) (n : ℕ) → IsLawful c → IsSpan c a n → is_quiet c a n ≡ true →
        (k : ℕ) → k < n → has_event c.track (a +ℤ pos k) ≡ false }
{}

/// Proves for any list of cells, however it was made: if the verdict on the cells for a span is
/// `Accepted`, the events in the cells are exactly the events of the span that are found by looking
/// at each of its minutes.
pub fn accepted_cells_are_exact()
    ensures { (c : CurveSpec) (a : ℤ) (n : ℕ) (cells : List Cell) → IsLawful c → IsSpan c a n →
        verdict c a n cells ≡ Verdict.Accepted → cell_events a cells ≡ plain_list c.track a n }
{}

/// Proves what is true of the cells that are made for a span by halving its blocks until each part
/// is quiet or a single minute (`cover`). They have as many minutes as the span, there are no more
/// cells than minutes, the check accepts them, and the events in them are exactly the events of the
/// span.
pub fn covers_are_accepted()
    ensures minutes { (c : CurveSpec) (a : ℤ) (n : ℕ) → all_minutes (cover c a n) ≡ n }
    ensures count_bound { (c : CurveSpec) (a : ℤ) (n : ℕ) → length (cover c a n) ≤ n }
    ensures accepted { (c : CurveSpec) (a : ℤ) (n : ℕ) → verdict c a n (cover c a n) ≡ Verdict.Accepted }
    ensures exact { (c : CurveSpec) (a : ℤ) (n : ℕ) → IsLawful c → IsSpan c a n →
        cell_events a (cover c a n) ≡ plain_list c.track a n }
{}

/// Proves for two curves that have the same values, levels and rates, and differ only in their
/// first and last minute: a span has the same cells (`cover`) for both, and the verdict on any list
/// of cells is the same.
pub fn answers_are_those_of_more_minutes()
    ensures cells { (c : CurveSpec) (first last a : ℤ) (n : ℕ) → cover (at_minutes first last c) a n ≡ cover c a n }
    ensures verdicts { (c : CurveSpec) (first last a : ℤ) (n : ℕ) (cells : List Cell) →
        verdict (at_minutes first last c) a n cells ≡ verdict c a n cells }
{}
