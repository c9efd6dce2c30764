//! Examples of quiet cells, of the cells of spans and of verdicts, computed by hand.

ghost use Rattle.std.specs.Prelude.{◌≡◌, pos, negsuc, true, false, Some, [], ◌∷◌};
ghost use Rattle.curve_law.specs.declared.cell.Cell.{Cell};
ghost use Rattle.curve_law.specs.declared.kind.Kind.{Kind};
ghost use Rattle.curve_law.specs.declared.quiet.TheConstants.{MOST_MINUTES};
ghost use Rattle.curve_law.specs.declared.verdict.Verdict.{Verdict};
ghost use Rattle.curve_law.specs.CurveSpec.{CurveSpec};
ghost use Rattle.curve_law.specs.Cover.{is_quiet, cover};
ghost use Rattle.curve_law.specs.Samples.{line, ripple};
ghost use Rattle.curve_law.specs.Verdicts.{verdict};

/// Proves for some minutes whether they can be one quiet cell. `line start falls rate` is a curve
/// with the value `start` at minute 0 that rises by 1 each minute, or falls if `falls` is true,
/// with the bound `rate` on its change in a minute. The next arguments are the first minute and the
/// number of minutes. `negsuc n` is -(n + 1).
#[tactic(auto, unfolding(crate::specs::Cover::keeps_side, crate::specs::Cover::is_quiet))]
pub fn worked_quiet_cells()
    // Above 0 the sum of both end values must exceed the rate times the minutes: 2 + 4 isn't more
    // than 3 * 2.
    ensures exactly_above { is_quiet (line (pos 1) false (pos 3)) (pos 1) 2 ≡ false }
    // 3 + 5 is more than 3 * 2.
    ensures more_above { is_quiet (line (pos 1) false (pos 3)) (pos 2) 2 ≡ true }
    // At or below 0 the sum may be equal to it in size: 2 + 4 is 3 * 2, and the end values are -2
    // and -4.
    ensures exactly_below { is_quiet (line (negsuc 0) true (pos 3)) (pos 1) 2 ≡ true }
    // 1 + 3 is less than 3 * 2; the end values are -1 and -3.
    ensures less_below { is_quiet (line (negsuc 0) true (pos 3)) (pos 0) 2 ≡ false }
    // The value may rise to 0 at the end, from -2 in two minutes.
    ensures to_zero { is_quiet (line (negsuc 1) false (pos 1)) (pos 0) 2 ≡ true }
    // A quiet cell has at least two minutes.
    ensures one_minute { is_quiet (line (pos 9) false (pos 1)) (pos 0) 1 ≡ false }
    // A curve without a bound on its change has no quiet cells.
    ensures no_rate { is_quiet ripple (pos 0) 2 ≡ false }
    // A value that is always 0, with the rate 0, is quiet for 1,024 minutes.
    ensures longest { let c : CurveSpec = record ripple {
      track = record { value = λ m. pos 0; note = λ m. m; rising = Kind.Low; falling = Kind.High };
      rate = λ a n. Some (pos 0);
    } in
        is_quiet c (pos 0) 1024 ≡ true }
    // 1,025 minutes are too many for a quiet cell.
    ensures too_long { let c : CurveSpec = record ripple {
      track = record { value = λ m. pos 0; note = λ m. m; rising = Kind.Low; falling = Kind.High };
      rate = λ a n. Some (pos 0);
    } in
        is_quiet c (pos 0) 1025 ≡ false }
{}

/// Proves the cells that are made for some spans by halving blocks of minutes.
/// `line start falls rate` is a curve with the value `start` at minute 0 that rises by 1 each
/// minute, or falls if `falls` is true, with the bound `rate` on its change in a minute. The next
/// arguments are the first minute and the number of minutes. `negsuc n` is -(n + 1).
#[tactic(auto, unfolding(crate::specs::Cover::keeps_side, crate::specs::Cover::is_quiet, crate::specs::Cover::unit_cell, crate::specs::Pieces::halves_within, crate::specs::Pieces::pieces_of_block, crate::specs::Pieces::blocks_within, crate::specs::Pieces::pieces_of, crate::specs::Cover::cover))]
pub fn worked_covers()
    // The values are 1 to 9: the block and its first half are halved, and the first quarter down to
    // single minutes; the second quarter and the second half are quiet.
    ensures halved { cover (line (pos 1) false (pos 3)) (pos 0) 8 ≡ Cell.Still ∷ Cell.Still ∷ Cell.Quiet 2 ∷ Cell.Quiet 4 ∷ [] }
    // The value rises past 0 after minute 2, at which its event has the level 2, the minute's
    // number.
    ensures event { cover (line (negsuc 1) false (pos 1)) (pos 0) 8
        ≡ Cell.Quiet 2 ∷ Cell.Turn Kind.Low (pos 2) ∷ Cell.Still ∷ Cell.Quiet 4 ∷ [] }
    // Of three minutes the first half has one minute and the second two.
    ensures odd { cover (line (pos 2) false (pos 3)) (pos 0) 3 ≡ Cell.Still ∷ Cell.Quiet 2 ∷ [] }
    // Without a bound on the change, a block is halved down to single minutes.
    ensures no_rate { cover ripple (pos 0) 2 ≡ Cell.Turn Kind.MarkFalling (pos 0) ∷ Cell.Turn Kind.MarkRising (pos 0) ∷ [] }
    // A span of no minutes has no cells.
    ensures no_minute { cover ripple (pos 0) 0 ≡ [] }
    // A span of 2,049 minutes with the value 0 is cut into blocks of 1,024, 1,024 and 1 minutes.
    ensures blocks { let c : CurveSpec = record ripple {
      track = record { value = λ m. pos 0; note = λ m. m; rising = Kind.Low; falling = Kind.High };
      rate = λ a n. Some (pos 0);
    } in
        cover c (pos 0) 2049 ≡ Cell.Quiet 1024 ∷ Cell.Quiet 1024 ∷ Cell.Still ∷ [] }
{}

/// Proves verdicts on lists of cells, most of them for a curve with the value m - 2 at minute m, a
/// rise past 0 after minute 2, and the bound 1 on its change in a minute. Its event has the kind
/// `Low` and the level 2, the minute's number. The arguments after the curve are the span's first
/// minute and number of minutes, and the cells.
#[tactic(auto, unfolding(crate::specs::Cover::keeps_side, crate::specs::Cover::is_quiet, crate::specs::Cells::all_minutes, crate::specs::Verdicts::cell_verdict, crate::specs::Verdicts::cells_verdict, crate::specs::Verdicts::verdict))]
pub fn worked_verdicts()
    // The cells that are made by halving are accepted.
    ensures by_halves { verdict (line (negsuc 1) false (pos 1)) (pos 0) 8
        (Cell.Quiet 2 ∷ Cell.Turn Kind.Low (pos 2) ∷ Cell.Still ∷ Cell.Quiet 4 ∷ []) ≡ Verdict.Accepted }
    // Cells that were made in another way, of one minute each, are accepted as well.
    ensures each_minute { verdict (line (negsuc 1) false (pos 1)) (pos 0) 8
        (Cell.Still ∷ Cell.Still ∷ Cell.Turn Kind.Low (pos 2) ∷ Cell.Still ∷ Cell.Still ∷ Cell.Still ∷ Cell.Still
        ∷ Cell.Still ∷ []) ≡ Verdict.Accepted }
    // The first cell claims to be quiet and has the event.
    ensures not_quiet { verdict (line (negsuc 1) false (pos 1)) (pos 0) 8 (Cell.Quiet 8 ∷ []) ≡ Verdict.NotQuiet 1 }
    // The cells have 7 minutes, and the span has 8.
    ensures short { verdict (line (negsuc 1) false (pos 1)) (pos 0) 8
        (Cell.Quiet 2 ∷ Cell.Turn Kind.Low (pos 2) ∷ Cell.Still ∷ Cell.Quiet 3 ∷ []) ≡ Verdict.WrongLength (pos 7) (pos 8) }
    // Cells with more minutes than the span.
    ensures long { verdict (line (negsuc 1) false (pos 1)) (pos 0) 8
        (Cell.Quiet 4294967295 ∷ Cell.Quiet 4294967295 ∷ []) ≡ Verdict.WrongLength (pos 8589934590) (pos 8) }
    // A quiet cell of 1,025 minutes, for a line with values of 9,999 or more.
    ensures too_long { verdict (line (pos 9999) false (pos 1)) (pos 0) 1025 (Cell.Quiet 1025 ∷ []) ≡ Verdict.NotQuiet 1 }
    // The second cell is a quiet cell of one minute.
    ensures too_short { verdict (line (pos 9) false (pos 1)) (pos 0) 2 (Cell.Still ∷ Cell.Quiet 1 ∷ []) ≡ Verdict.NotQuiet 2 }
    // The second cell claims that there is no event after minute 2, and there is one.
    ensures unseen { verdict (line (negsuc 1) false (pos 1)) (pos 0) 3
        (Cell.Quiet 2 ∷ Cell.Still ∷ []) ≡ Verdict.WrongStep 2 }
    // The first cell claims an event after minute 0, and there is none.
    ensures invented { verdict (line (negsuc 1) false (pos 1)) (pos 0) 1 (Cell.Turn Kind.Low (pos 0) ∷ []) ≡ Verdict.WrongStep 1 }
    // The second cell claims a high water after minute 2, and the event is a low water.
    ensures other_kind { verdict (line (negsuc 1) false (pos 1)) (pos 0) 3
        (Cell.Quiet 2 ∷ Cell.Turn Kind.High (pos 3) ∷ []) ≡ Verdict.WrongStep 2 }
    // The second cell claims the level 3, and the event has the level 2.
    ensures other_level { verdict (line (negsuc 1) false (pos 1)) (pos 0) 3
        (Cell.Quiet 2 ∷ Cell.Turn Kind.Low (pos 3) ∷ []) ≡ Verdict.WrongLevel 2 (pos 3) (pos 2) }
    // The empty list of cells is accepted for a span of no minutes.
    ensures no_minute { verdict ripple (pos 0) 0 [] ≡ Verdict.Accepted }
{}

/// Proves that a quiet cell (consecutive minutes with no event after any of them) has at most 1,024
/// minutes, and that a block, which a span of time is cut into, has as many.
pub fn worked_limits()
    ensures minutes { MOST_MINUTES ≡ 1024 }
{}
