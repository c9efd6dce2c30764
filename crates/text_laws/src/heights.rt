//! The law of the command `heights`.

ghost use Rattle.std.specs.Prelude.{◌≡◌, ℕ, ℤ, pos, neg_ℤ, ◌≤ℤ◌, [], ◌∷◌, slice_get};
ghost use Rattle.text_laws.specs.Heights.{row_until, rows_over};

/// Proves which rows the command `heights` lists for any function `level` of the minute. The row at
/// each index, counted from 0, has the minute `begin + index * step` and the level at this minute, if
/// the minute isn't after `end`; there are no other rows. `begin` isn't after `end`, and `step` is at
/// least 1 minute.
pub fn heights_are_levels()
    ensures { (level : ℤ → ℤ) (begin end step : ℤ) → begin ≤ℤ end → pos 1 ≤ℤ step → (index : ℕ) →
        slice_get (rows_over level begin end step) index ≡ row_until level begin end step index }
{}

/// Proves examples of rows 10 minutes apart from minute 5 on; the level is the negated minute.
///
/// - `passed`: a span to minute 34 has rows at 5, 15 and 25, since 35 is after its end.
/// - `met`: a span to minute 15 has rows at 5 and 15, since the end of the span can have a row.
pub fn worked_heights()
    ensures passed { rows_over neg_ℤ (pos 5) (pos 34) (pos 10)
        ≡ record { minute = pos 5; level = neg_ℤ (pos 5) } ∷ record { minute = pos 15; level = neg_ℤ (pos 15) }
        ∷ record { minute = pos 25; level = neg_ℤ (pos 25) } ∷ [] }
    ensures met { rows_over neg_ℤ (pos 5) (pos 15) (pos 10)
        ≡ record { minute = pos 5; level = neg_ℤ (pos 5) } ∷ record { minute = pos 15; level = neg_ℤ (pos 15) } ∷ [] }
{}
