//! Rates, values and cells that were computed elsewhere, for a tide of 12 hours with an amplitude of 1,
//! highest at noon and midnight.
#![tactic(auto, unfolding(curve_law::specs::Cover::cover, curve_law::specs::Pieces::pieces_of, curve_law::specs::Pieces::blocks_within, curve_law::specs::Pieces::pieces_of_block, curve_law::specs::Pieces::halves_within, curve_law::specs::Cover::unit_cell, curve_law::specs::Cover::is_quiet, curve_law::specs::Cover::keeps_side, curve_law::specs::Verdicts::verdict, curve_law::specs::Verdicts::cells_verdict, curve_law::specs::Verdicts::cell_verdict, curve_law::specs::Cells::all_minutes, crate::specs::Rates::predicted_slope_rate, crate::specs::Rates::predicted_level_rate, year_blend::specs::Stretches::stretch_of, year_blend::specs::Places::plain_end_of, year_blend::specs::Places::place_of, year_blend::specs::Places::place_in, year_blend::specs::Places::year_at, station_curve::specs::Curves::waves_of, fixed_sine::specs::Rate::step_of, decimal_text::specs::Rounding::rounded_of, year_blend::specs::Years::year_start_of, jiff_core::specs::Calendar::days_from_civil, jiff_core::specs::Calendar::day_count, jiff_core::specs::Calendar::days_of_years, jiff_core::specs::Calendar::days_of_months, station_curve::specs::Schureman::predicted_slope, station_curve::specs::Schureman::predicted_level, station_curve::specs::Schureman::predicted_millionths, station_curve::specs::Schureman::predicted_year_slope, station_curve::specs::Schureman::predicted_year_level, year_blend::specs::Weights::weight_of, year_blend::specs::Weights::weight_slope_of, fixed_sine::specs::Sine::icos_of, fixed_sine::specs::Sine::isin_of, fixed_sine::specs::Sine::half_of, fixed_sine::specs::Sine::quarter_of, fixed_sine::specs::Sine::scaled_between, fixed_sine::specs::Table::sine_at, fixed_sine::specs::Table::correction, fixed_sine::specs::Table::sines))]

ghost use Rattle.std.specs.Prelude.{◌≡◌, ◌*◌, ◌^◌, [], ◌∷◌, Some, None, true, false, pos, negsuc};
ghost use Rattle.curve_law.specs.Cover.{cover};
ghost use Rattle.curve_law.specs.Verdicts.{verdict};
ghost use Rattle.curve_law.specs.declared.cell.Cell.{Cell};
ghost use Rattle.curve_law.specs.declared.kind.Kind.{Kind};
ghost use Rattle.curve_law.specs.declared.verdict.Verdict.{Verdict};
ghost use Rattle.harmonics_book.specs.declared.book.Units.TheVariants.{Feet};
ghost use Rattle.station_curve.specs.Worked.{small_station, pier_book, shifted_book, pier};
ghost use Rattle.rate_bound.specs.declared.version.Version.{Version};
ghost use Rattle.rate_bound.specs.Rates.{predicted_slope_rate, predicted_level_rate};
ghost use Rattle.rate_bound.specs.CurveSpecs.{predicted_turn, predicted_mark};

/// Proves bounds on the change in a minute of the slope (`predicted_slope_rate`), and of the level
/// multiplied by a number of millionths (`predicted_level_rate`), for a tide of 12 hours with an
/// amplitude of one foot. The last two arguments are the first minute and the number of minutes: 8
/// from 00:00 UTC on 10 January 2000 (15791040), or 4 from 23:00 UTC on 31 December 1999
/// (15778020), which reach the blend of two years' constants at the new year. In a blend
/// `Version.First` has no bound (`None`). `steepest_plain` and `steepest_across` are for 333.333333
/// feet, the steepest tide within the limits; in the blend its bound exceeds 4 * 10^34, so that
/// `Version.Second` has none. Slopes are in
/// feet a minute, multiplied by 10^15 * 34,377,467,708 * 4,147,200,000 (34,377,467,708 units of
/// angle are a radian, and 4,147,200,000 is the total weight of a blend). Levels are in feet,
/// multiplied by 10^15 * 4,147,200,000, and their bounds have the factor in millionths (1000000 or
/// 2000000) too.
pub fn worked_rates()
    ensures plain { predicted_slope_rate Version.First pier_book pier (pos 15791040) 8
        ≡ Some (pos 10857785564160000000000000000000) }
    ensures plain_in_both { predicted_slope_rate Version.Second pier_book pier (pos 15791040) 8
        ≡ Some (pos 10857785564160000000000000000000) }
    ensures across_by_the_first { predicted_slope_rate Version.First shifted_book pier (pos 15778020) 4 ≡ None }
    ensures across { predicted_slope_rate Version.Second shifted_book pier (pos 15778020) 4
        ≡ Some (pos 202958823641415808556800000000000) }
    ensures steepest_plain { predicted_slope_rate Version.Second pier_book (small_station (pos 333333333) Feet) (pos 15791040) 8
        ≡ Some (pos 3619261851100738145280000000000000) }
    ensures steepest_across { predicted_slope_rate Version.Second pier_book (small_station (pos 333333333) Feet) (pos 15778020) 4 ≡ None }
    ensures level { predicted_level_rate Version.First (pos 1000000) pier_book pier (pos 15791040) 8
        ≡ Some (pos (1000000 * 36192618547200000000000)) }
    ensures level_across_by_the_first { predicted_level_rate Version.First (pos 1000000) pier_book pier (pos 15778020) 4 ≡ None }
    ensures twice_the_level_across { predicted_level_rate Version.Second (pos 2000000) pier_book pier (pos 15778020) 4
        ≡ Some (pos (2000000 * 165792618547200000000000)) }
{}

/// Proves cells and slopes for a tide of 12 hours with an amplitude of one foot, highest at noon
/// and midnight; times are UTC. `cover` returns the cells of a span, and `verdict` checks given
/// ones. A cell is `Still` (a minute with no event after it), `Quiet n` (n such minutes) or `Turn`
/// (a minute with an event after it; its number is the level, in millionths of a foot). From 00:00
/// on 10 January 2000 (15791040) the slope falls from 0, and the rate (the bound on its change in a
/// minute) is 0.09 per cent too great for one cell of eight minutes, so the verdict is `NotQuiet`
/// (cell 1). There is a low water of -1 foot after 06:00 (15791400), and a high water of 0.999962
/// feet after 11:59 (15791759). The slope is 0.004363 feet a minute at 23:00 on 31 December 1999
/// (15778020), and 0.004097 at 23:04, in the blend of two years' constants. The eight minutes from
/// 23:00 on are two cells by `Version.Second`; `Version.First` has no rate in a blend, so it
/// accepts only a cell for each minute. Without a tide (amplitude 0), the 1,024 minutes from 16:00
/// on (15777600) are one cell, but not by `Version.First`. Slopes are in feet a minute, multiplied
/// by 10^15 * 34,377,467,708 * 4,147,200,000 (34,377,467,708 units of angle are a radian, and
/// 4,147,200,000 is the total weight of a blend).
pub fn worked_turns()
    ensures from_midnight { cover (predicted_turn Version.First pier_book pier) (pos 15791040) 8
        ≡ Cell.Still ∷ Cell.Still ∷ Cell.Quiet 2 ∷ Cell.Quiet 4 ∷ [] }
    ensures too_long { verdict (predicted_turn Version.Second pier_book pier) (pos 15791040) 8 (Cell.Quiet 8 ∷ [])
        ≡ Verdict.NotQuiet 1 }
    ensures low_water { cover (predicted_turn Version.Second pier_book pier) (pos 15791399) 2
        ≡ Cell.Still ∷ Cell.Turn Kind.Low (negsuc 999999) ∷ [] }
    ensures high_water { cover (predicted_turn Version.Second pier_book pier) (pos 15791759) 1
        ≡ Cell.Turn Kind.High (pos 999962) ∷ [] }
    ensures before_a_new_year { (predicted_turn Version.Second pier_book pier).track.value (pos 15778020)
        ≡ pos 622080000000000000000000000000000 }
    ensures in_its_blend { (predicted_turn Version.Second pier_book pier).track.value (pos 15778024)
        ≡ pos 584097739822080000000000000000000 }
    ensures across_a_new_year { cover (predicted_turn Version.Second pier_book pier) (pos 15778020) 8
        ≡ Cell.Quiet 4 ∷ Cell.Quiet 4 ∷ [] }
    ensures not_by_the_first { verdict (predicted_turn Version.First pier_book pier) (pos 15778020) 8 (Cell.Quiet 4 ∷ Cell.Quiet 4 ∷ [])
        ≡ Verdict.NotQuiet 1 }
    ensures minute_by_minute { verdict (predicted_turn Version.First pier_book pier) (pos 15778020) 8
        (Cell.Still ∷ Cell.Still ∷ Cell.Still ∷ Cell.Still ∷ Cell.Still ∷ Cell.Still ∷ Cell.Still ∷ Cell.Still ∷ [])
        ≡ Verdict.Accepted }
    ensures no_tide { cover (predicted_turn Version.Second pier_book (small_station (pos 0) Feet)) (pos 15777600) 1024
        ≡ Cell.Quiet 1024 ∷ [] }
    ensures no_tide_by_the_first { verdict (predicted_turn Version.First pier_book (small_station (pos 0) Feet)) (pos 15777600) 1024
        (Cell.Quiet 1024 ∷ []) ≡ Verdict.NotQuiet 1 }
{}

/// Proves values and cells of the curve `predicted_mark version book station times plus mark
/// slack`: the level multiplied by `times`, plus `plus`, less `mark`, all three in millionths. The
/// tide has 12 hours, an amplitude of one foot and high water at midnight; times are UTC on 10
/// January 2000. The level is 1 foot at 00:00 (15791040) and a half at 02:00 (15791160), so there
/// twice the level plus one half is at the mark 1.5. The level falls to the mark 0.5 after 01:59
/// (15791159), and rises above it after 10:00 (15791640). If `slack` is true, the events are slack
/// waters: ebb begins after 02:59 (15791219), flood after 09:00 (15791580). `Cell.Turn` has an
/// event's kind and the level, in millionths of a foot, at the minute before it; `Cell.Still` is a
/// minute with no event after it. Values are in feet, multiplied by 10^21 * 4,147,200,000 (the
/// total weight of a blend).
pub fn worked_marks()
    ensures highest { (predicted_mark Version.Second pier_book pier (pos 1000000) (pos 0) (pos 0) true).track.value (pos 15791040)
        ≡ pos 4147200000000000000000000000000 }
    ensures at_the_mark { (predicted_mark Version.Second pier_book pier (pos 1000000) (pos 0) (pos 500000) false).track.value (pos 15791160)
        ≡ pos 0 }
    ensures twice_and_more { (predicted_mark Version.Second pier_book pier (pos 2000000) (pos 500000)
        (pos 1500000) false).track.value (pos 15791160)
        ≡ pos 0 }
    ensures a_minute_on { (predicted_mark Version.Second pier_book pier (pos 2000000) (pos 500000)
        (pos 1500000) false).track.value (pos 15791161)
        ≡ negsuc 62842040524799999999999999999 }
    ensures falls_to_the_mark { cover (predicted_mark Version.Second pier_book pier (pos 1000000) (pos 0) (pos 500000) false)
        (pos 15791159) 1
        ≡ Cell.Turn Kind.MarkFalling (pos 507538) ∷ [] }
    ensures rises_past_it { cover (predicted_mark Version.Second pier_book pier (pos 1000000) (pos 0) (pos 500000) false) (pos 15791640) 1
        ≡ Cell.Turn Kind.MarkRising (pos 500000) ∷ [] }
    ensures ebb { cover (predicted_mark Version.Second pier_book pier (pos 1000000) (pos 0) (pos 0) true) (pos 15791219) 2
        ≡ Cell.Turn Kind.EbbBegins (pos 8727) ∷ Cell.Still ∷ [] }
    ensures flood { cover (predicted_mark Version.Second pier_book pier (pos 1000000) (pos 0) (pos 0) true) (pos 15791580) 1
        ≡ Cell.Turn Kind.FloodBegins (pos 0) ∷ [] }
{}
