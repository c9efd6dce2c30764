//! Examples of highest waters, of their cells and of verdicts, computed by hand.

ghost use Rattle.std.specs.Prelude.{◌≡◌, pos, negsuc, true, false, [], ◌∷◌};
ghost use Rattle.curve_law.specs.Samples.{line, ripple};
ghost use Rattle.highest_water.specs.declared.peak_cell.PeakCell.{PeakCell};
ghost use Rattle.highest_water.specs.declared.verdict.PeakVerdict.{PeakVerdict};
ghost use Rattle.highest_water.specs.Peaks.{highest_minute};
ghost use Rattle.highest_water.specs.Covers.{is_under, peak_cover};
ghost use Rattle.highest_water.specs.Samples.{hills};
ghost use Rattle.highest_water.specs.Verdicts.{peak_verdict};

/// Proves the minutes of the highest waters of some spans of n minutes from minute `a` on, the last
/// two arguments. `hills at top other_at other_top rate` is a curve with two maxima, given by their
/// minutes and values, that falls by 1 each minute to both sides of each. `line start falls rate`
/// has the value `start` at minute 0 and rises by 1 each minute, or falls if `falls` is true.
/// `ripple` is 1 at even minutes and -1 at odd ones. `negsuc n` is -(n + 1).
#[tactic(auto, unfolding(crate::specs::Peaks::highest_minute))]
pub fn worked_minutes()
    // Of two maxima with the same value the first is the highest water.
    ensures equal_tops { highest_minute (hills (pos 2) (pos 5) (pos 6) (pos 5) (pos 1)) (pos 0) 8 ≡ pos 2 }
    // The second maximum has a greater value.
    ensures second_higher { highest_minute (hills (pos 2) (pos 5) (pos 6) (pos 7) (pos 1)) (pos 0) 8 ≡ pos 6 }
    // The span begins after the first maximum.
    ensures second_alone { highest_minute (hills (pos 2) (pos 5) (pos 6) (pos 5) (pos 1)) (pos 3) 5 ≡ pos 6 }
    // The value rises: the last minute of the span is the highest, 7 and not its end, 8.
    ensures before_end { highest_minute (line (pos 1) false (pos 1)) (pos 0) 8 ≡ pos 7 }
    // The value falls: the first minute of the span, -3, is the highest.
    ensures at_begin { highest_minute (line (pos 1) true (pos 1)) (negsuc 2) 8 ≡ negsuc 2 }
    // A span of one minute has its highest water there.
    ensures one_minute { highest_minute ripple (pos 3) 1 ≡ pos 3 }
    // Of the minutes from 3 to 8 the first even one is 4.
    ensures first_even { highest_minute ripple (pos 3) 6 ≡ pos 4 }
{}

/// Proves for some cells whether they are under a claimed highest water: the arguments after the
/// curve are its minute and value, the cell's first minute, and the cell's number of minutes.
/// `line start falls rate` has the value `start` at minute 0 and rises by 1 each minute, or falls
/// if `falls` is true; `rate` is the bound on its change in a minute. Twice a value in the cell is
/// at most the values at both ends plus the rate times the minutes. `negsuc n` is -(n + 1).
#[tactic(auto, unfolding(crate::specs::Covers::stays_below, crate::specs::Covers::stays_within, crate::specs::Covers::is_under))]
pub fn worked_cells_under()
    // Before the claimed minute the bound must be less than the claimed value: 5 + 7 + 1 * 2 is
    // 2 * 7.
    ensures exactly_before { is_under (line (pos 0) false (pos 1)) (pos 7) (pos 7) (pos 5) 2 ≡ false }
    // 4 + 6 + 1 * 2 is less than 2 * 7.
    ensures less_before { is_under (line (pos 0) false (pos 1)) (pos 7) (pos 7) (pos 4) 2 ≡ true }
    // After the claimed minute the bound may be equal to the claimed value: -1 - 3 + 2 * 2 is
    // 2 * 0.
    ensures exactly_after { is_under (line (pos 0) true (pos 2)) (pos 0) (pos 0) (pos 1) 2 ≡ true }
    // -1 - 3 + 3 * 2 is more than 2 * 0.
    ensures more_after { is_under (line (pos 0) true (pos 3)) (pos 0) (pos 0) (pos 1) 2 ≡ false }
    // The claimed minute, 0, is the first minute of the cell.
    ensures holding { is_under (line (pos 0) true (pos 2)) (pos 0) (pos 99) (pos 0) 2 ≡ false }
    // The claimed minute, 1, is the last minute of the cell.
    ensures holding_last { is_under (line (pos 0) true (pos 2)) (pos 1) (pos 99) (pos 0) 2 ≡ false }
    // The claimed minute, 2, is the end of the cell, which isn't one of its minutes.
    ensures beside { is_under (line (pos 0) true (pos 2)) (pos 2) (pos 99) (pos 0) 2 ≡ true }
    // A cell under a highest water has at least two minutes.
    ensures one_minute { is_under (line (pos 0) true (pos 1)) (pos 9) (pos 99) (pos 0) 1 ≡ false }
    // A curve without a bound on its change has no such cells.
    ensures no_rate { is_under ripple (pos 9) (pos 99) (pos 0) 2 ≡ false }
    // A cell may have 1,024 minutes.
    ensures longest { is_under (line (pos 0) true (pos 1)) (negsuc 0) (pos 99) (pos 0) 1024 ≡ true }
    // 1,025 minutes are too many.
    ensures too_long { is_under (line (pos 0) true (pos 1)) (negsuc 0) (pos 99) (pos 0) 1025 ≡ false }
{}

/// Proves the cells that are made for a highest water by halving blocks of minutes: `Under n` is n
/// minutes under the highest water, and `Single` is a single minute. The arguments after the curve
/// are the highest water's minute and value, the span's first minute, and its number of minutes.
/// `hills at top other_at other_top rate` is a curve with two maxima, given by their minutes and
/// values, that falls by 1 each minute to both sides of each; `line start falls rate` has the value
/// `start` at minute 0 and rises by 1 each minute, or falls if `falls` is true.
#[tactic(auto, unfolding(crate::specs::Covers::stays_below, crate::specs::Covers::stays_within, crate::specs::Covers::is_under, curve_law::specs::Pieces::halves_within, curve_law::specs::Pieces::pieces_of_block, curve_law::specs::Pieces::blocks_within, curve_law::specs::Pieces::pieces_of, crate::specs::Covers::peak_cover))]
pub fn worked_covers()
    // The first 4 minutes, with the highest water at minute 2, are halved down to single minutes.
    // The next 4, with a second maximum of the same value, are under it.
    ensures first_top { peak_cover (hills (pos 2) (pos 5) (pos 6) (pos 5) (pos 1)) (pos 2) (pos 5) (pos 0) 8
        ≡ PeakCell.Single ∷ PeakCell.Single ∷ PeakCell.Single ∷ PeakCell.Single ∷ PeakCell.Under 4 ∷ [] }
    // Of five minutes the first half has two, and the highest water is the first of them.
    ensures odd { peak_cover (line (pos 0) true (pos 1)) (pos 0) (pos 0) (pos 0) 5
        ≡ PeakCell.Single ∷ PeakCell.Single ∷ PeakCell.Under 3 ∷ [] }
    // The highest water is the last minute of the span.
    ensures last_minute { peak_cover (line (pos 0) false (pos 1)) (pos 7) (pos 7) (pos 0) 8
        ≡ PeakCell.Under 4 ∷ PeakCell.Under 2 ∷ PeakCell.Single ∷ PeakCell.Single ∷ [] }
    // Without a bound on the change, a block is halved down to single minutes.
    ensures no_rate { peak_cover ripple (pos 4) (pos 1) (pos 4) 2 ≡ PeakCell.Single ∷ PeakCell.Single ∷ [] }
    // The first 1,024 minutes are one block, which is under the highest water at minute 1025.
    ensures longest_cell { peak_cover (line (pos 0) false (pos 1)) (pos 1025) (pos 1025) (pos 0) 1026
        ≡ PeakCell.Under 1024 ∷ PeakCell.Single ∷ PeakCell.Single ∷ [] }
    // The first 1,024 minutes are halved at the highest water, minute 0. The second block is one
    // minute.
    ensures two_blocks { peak_cover (line (pos 0) true (pos 1)) (pos 0) (pos 0) (pos 0) 1025
        ≡ PeakCell.Single ∷ PeakCell.Single ∷ PeakCell.Under 2 ∷ PeakCell.Under 4 ∷ PeakCell.Under 8 ∷ PeakCell.Under 16 ∷ PeakCell.Under 32
        ∷ PeakCell.Under 64 ∷ PeakCell.Under 128 ∷ PeakCell.Under 256 ∷ PeakCell.Under 512 ∷ PeakCell.Single ∷ [] }
{}

/// Proves verdicts on claimed highest waters, most of them for a curve with two maxima of the value
/// 5, at the minutes 2 and 6, that falls by 1 each minute to both sides of each. The arguments
/// after the curve are the span's first minute and number of minutes, and the claim. The number of
/// minutes in the cells is judged first, then the claimed minute, and then each cell. `negsuc n` is
/// -(n + 1).
#[tactic(auto, unfolding(crate::specs::Covers::all_minutes, crate::specs::Covers::stays_below, crate::specs::Covers::stays_within, crate::specs::Covers::is_under, crate::specs::Verdicts::cell_verdict, crate::specs::Verdicts::cells_verdict, crate::specs::Verdicts::peak_verdict))]
pub fn worked_verdicts()
    // The cells that are made by halving are accepted.
    ensures by_halves { peak_verdict (hills (pos 2) (pos 5) (pos 6) (pos 5) (pos 1)) (pos 0) 8 (record {
      at = pos 2;
      value = pos 5;
      cells = PeakCell.Single ∷ PeakCell.Single ∷ PeakCell.Single ∷ PeakCell.Single ∷ PeakCell.Under 4 ∷ [];
    }) ≡ PeakVerdict.Accepted }
    // Cells that were made in another way, of one minute each, are accepted as well.
    ensures each_minute { peak_verdict (hills (pos 2) (pos 5) (pos 6) (pos 5) (pos 1)) (pos 0) 8 (record {
      at = pos 2;
      value = pos 5;
      cells = PeakCell.Single ∷ PeakCell.Single ∷ PeakCell.Single ∷ PeakCell.Single ∷ PeakCell.Single ∷ PeakCell.Single
          ∷ PeakCell.Single ∷ PeakCell.Single ∷ [];
    })
        ≡ PeakVerdict.Accepted }
    // The cells have 5 minutes, and the span has 8; the claimed minute isn't judged.
    ensures short { peak_verdict (hills (pos 2) (pos 5) (pos 6) (pos 5) (pos 1)) (pos 0) 8 (record {
      at = pos 9;
      value = pos 5;
      cells = PeakCell.Single ∷ PeakCell.Under 4 ∷ [];
    }) ≡ PeakVerdict.WrongLength (pos 5) (pos 8) }
    // Cells with more minutes than the span.
    ensures long { peak_verdict (hills (pos 2) (pos 5) (pos 6) (pos 5) (pos 1)) (pos 0) 8 (record {
      at = pos 2;
      value = pos 5;
      cells = PeakCell.Under 4294967295 ∷ PeakCell.Under 4294967295 ∷ [];
    }) ≡ PeakVerdict.WrongLength (pos 8589934590) (pos 8) }
    // The claimed minute, 8, is the end of the span, which isn't one of its minutes.
    ensures at_end { peak_verdict (hills (pos 2) (pos 5) (pos 6) (pos 5) (pos 1)) (pos 0) 8 (record {
      at = pos 8;
      value = pos 3;
      cells = PeakCell.Under 8 ∷ [];
    }) ≡ PeakVerdict.Outside }
    // The claimed minute, -1, is before the span.
    ensures before_begin { peak_verdict (hills (pos 2) (pos 5) (pos 6) (pos 5) (pos 1)) (pos 0) 8 (record {
      at = negsuc 0;
      value = pos 2;
      cells = PeakCell.Under 8 ∷ [];
    }) ≡ PeakVerdict.Outside }
    // The second cell has the claimed minute, 2.
    ensures holding { peak_verdict (hills (pos 2) (pos 5) (pos 6) (pos 5) (pos 1)) (pos 0) 8 (record {
      at = pos 2;
      value = pos 99;
      cells = PeakCell.Under 2 ∷ PeakCell.Under 6 ∷ [];
    }) ≡ PeakVerdict.NotUnder 2 }
    // The first cell is before the claimed minute, and by the bound a value in it can be equal to
    // the claimed one.
    ensures exactly_before { peak_verdict (hills (pos 2) (pos 5) (pos 6) (pos 5) (pos 1)) (pos 0) 3 (record {
      at = pos 2;
      value = pos 5;
      cells = PeakCell.Under 2 ∷ PeakCell.Single ∷ [];
    }) ≡ PeakVerdict.NotUnder 1 }
    // The second cell claims one minute under the highest water; such a cell has at least two.
    ensures too_short { peak_verdict (hills (pos 2) (pos 5) (pos 6) (pos 5) (pos 1)) (pos 2) 2 (record {
      at = pos 2;
      value = pos 5;
      cells = PeakCell.Single ∷ PeakCell.Under 1 ∷ [];
    }) ≡ PeakVerdict.NotUnder 2 }
    // The second cell has 1,025 minutes.
    ensures too_long { peak_verdict (line (pos 0) true (pos 1)) (pos 0) 1026 (record {
      at = pos 0;
      value = pos 0;
      cells = PeakCell.Single ∷ PeakCell.Under 1025 ∷ [];
    }) ≡ PeakVerdict.NotUnder 2 }
    // The claimed value is 6, and the curve's value at the claimed minute is 5.
    ensures other_value { peak_verdict (hills (pos 2) (pos 5) (pos 6) (pos 5) (pos 1)) (pos 0) 4 (record {
      at = pos 2;
      value = pos 6;
      cells = PeakCell.Single ∷ PeakCell.Single ∷ PeakCell.Single ∷ PeakCell.Single ∷ [];
    }) ≡ PeakVerdict.WrongValue (pos 6) (pos 5) }
    // The first minute of the span, 2, has the same value as the claimed minute, 6, and is earlier.
    ensures second_top { peak_verdict (hills (pos 2) (pos 5) (pos 6) (pos 5) (pos 1)) (pos 2) 5 (record {
      at = pos 6;
      value = pos 5;
      cells = PeakCell.Single ∷ PeakCell.Single ∷ PeakCell.Single ∷ PeakCell.Single ∷ PeakCell.Single ∷ [];
    }) ≡ PeakVerdict.Above 1 }
    // The third cell is a minute with the value 5, and the claimed value is 4.
    ensures above { peak_verdict (hills (pos 2) (pos 5) (pos 6) (pos 5) (pos 1)) (pos 0) 3 (record {
      at = pos 1;
      value = pos 4;
      cells = PeakCell.Single ∷ PeakCell.Single ∷ PeakCell.Single ∷ [];
    }) ≡ PeakVerdict.Above 3 }
    // The second cell has the claimed value, 4, at a minute before the claimed one. This is found
    // before the third cell, at which the claimed value is wrong.
    ensures above_before_value { peak_verdict (hills (pos 2) (pos 5) (pos 6) (pos 5) (pos 1)) (pos 0) 3 (record {
      at = pos 2;
      value = pos 4;
      cells = PeakCell.Single ∷ PeakCell.Single ∷ PeakCell.Single ∷ [];
    }) ≡ PeakVerdict.Above 2 }
{}
