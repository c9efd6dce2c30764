//! Examples of the definitions.
#![tactic(auto, using(year_blend::proofs::StartLemmas::starts), unfolding(crate::specs::Errors::greatest_of, crate::specs::Errors::level_error_of, crate::specs::Errors::slope_error_of, crate::specs::Curves::is_touched, crate::specs::Curves::waves_over, crate::specs::Curves::waves_of, crate::specs::Curves::year_fault, crate::specs::Curves::first_fault, crate::specs::Curves::curve_of, crate::specs::Curves::curve_over, decimal_text::specs::Rounding::rounded_of, fixed_sine::specs::Rate::step_of, fixed_sine::specs::Sine::icos_of, fixed_sine::specs::Sine::isin_of, fixed_sine::specs::Sine::half_of, fixed_sine::specs::Sine::quarter_of, fixed_sine::specs::Sine::scaled_between, fixed_sine::specs::Table::sine_at, fixed_sine::specs::Table::correction, fixed_sine::specs::Table::sines))]

ghost use Rattle.std.specs.Prelude.{◌≡◌, ◌-◌, ◌*◌, ◌^◌, true, false, [], ◌∷◌, Ok, Err, pos, negsuc};
ghost use Rattle.harmonics_book.specs.declared.book.Units.TheVariants.{Feet, KnotsSquared};
ghost use Rattle.station_curve.specs.declared.fault.CurveFault.TheVariants.{Hydraulic, TooLarge, TooSteep};
ghost use Rattle.station_curve.specs.Curves.{waves_of, is_touched, waves_over, prediction_of, curve_of};
ghost use Rattle.station_curve.specs.Schureman.{amplitude_of, phase_of, predicted_level, predicted_slope, predicted_millionths};
ghost use Rattle.station_curve.specs.Waves.{heights_of, falls_of};
ghost use Rattle.station_curve.specs.Approximate.{approximate_level_of, approximate_slope_of};
ghost use Rattle.station_curve.specs.Errors.{level_error_of, slope_error_of};
ghost use Rattle.station_curve.specs.Sums.{sums_of};
ghost use Rattle.station_curve.specs.Worked.{small_book, small_station, small_wave, pier_book, shifted_book, pier, harbour_book, harbour};

/// Proves heights (what a wave adds to the level) and falls (what it adds to the slope, negated) of
/// a wave with an amplitude of one unit that turns by half a degree a minute from phase 0 on. Its
/// height is 1 unit at 0 minutes, a half at 120 minutes (60 degrees) and 0 at 180 (90 degrees); two
/// such waves have -2 units at 360 (180 degrees). Its fall is 0 at 360 minutes and greatest at 180:
/// half a degree in radians (0.0087 units a minute). Heights are in billionths of a millionth of a
/// unit, falls in units a minute, multiplied by 10^15 * 34,377,467,708 (the units of angle in a
/// radian); `negsuc n` is -(n + 1).
pub fn worked_waves()
    ensures top { heights_of 0 (small_wave ∷ []) ≡ pos (10 ^ 15) }
    ensures sixty_degrees { heights_of 120 (small_wave ∷ []) ≡ pos (5 * 10 ^ 14) }
    ensures right_angle { heights_of 180 (small_wave ∷ []) ≡ pos 0 }
    ensures twice { heights_of 360 (small_wave ∷ small_wave ∷ []) ≡ negsuc (2 * 10 ^ 15 - 1) }
    ensures flat { falls_of 360 (small_wave ∷ []) ≡ pos 0 }
    ensures steepest { falls_of 180 (small_wave ∷ []) ≡ pos (3 * 10 ^ 23) }
{}

/// Proves which stations have a curve, for a book from 1999 to 2001 with one constituent (`small_book`,
/// with its speed) and a station (`small_station`, with its amplitude and unit). At 30 degrees an hour
/// an amplitude of 333.333333 feet is within the limit on amplitude times speed, and a millionth of a
/// foot more is too steep, in 1999. At 10 degrees an hour 1,000 feet are within both limits, and a
/// millionth more is too large, in 1999. For a hydraulic current (`KnotsSquared`) the reason is
/// `Hydraulic`, even if a year exceeds a limit.
pub fn worked_limits()
    ensures steepest { curve_of (small_book (pos 300000000) (pos 0)) (small_station (pos 333333333) Feet)
        ≡ Ok (prediction_of (small_book (pos 300000000) (pos 0)) (small_station (pos 333333333) Feet)) }
    ensures too_steep { curve_of (small_book (pos 300000000) (pos 0)) (small_station (pos 333333334) Feet)
        ≡ Err (TooSteep (pos 1999)) }
    ensures largest { curve_of (small_book (pos 100000000) (pos 0)) (small_station (pos 1000000000) Feet)
        ≡ Ok (prediction_of (small_book (pos 100000000) (pos 0)) (small_station (pos 1000000000) Feet)) }
    ensures too_large { curve_of (small_book (pos 100000000) (pos 0)) (small_station (pos 1000000001) Feet)
        ≡ Err (TooLarge (pos 1999)) }
    ensures hydraulic_first { curve_of (small_book (pos 100000000) (pos 0)) (small_station (pos 1000000001) KnotsSquared)
        ≡ Err Hydraulic }
{}

/// Proves which of the years 1999 (index 0) to 2001 (index 2) a curve needs: each year at most an
/// hour from its minutes. A curve from 01:00 UTC on 1 January 2000 to 23:00 on 31 December 2000
/// needs all three. If it begins at 01:01 it doesn't need 1999, and has no waves for this year; if
/// it ends at 22:59 it doesn't need 2001.
pub fn worked_reach()
    ensures hour_after { is_touched pier_book (pos 15778140) (pos 16305060) 0 ≡ true }
    ensures between { is_touched pier_book (pos 15778140) (pos 16305060) 1 ≡ true }
    ensures hour_before { is_touched pier_book (pos 15778140) (pos 16305060) 2 ≡ true }
    ensures minute_later { is_touched pier_book (pos 15778141) (pos 16305060) 0 ≡ false }
    ensures minute_earlier { is_touched pier_book (pos 15778140) (pos 16305059) 2 ≡ false }
    ensures no_waves { waves_over pier_book pier (pos 15778141) (pos 16305060) 0 ≡ [] }
{}

/// Proves amplitudes and phases of two constituents, M2 (index 0) and S2 (index 1), in 2000 (year 0)
/// and 2001 (year 1). Amplitudes are in millionths of a foot, multiplied by the year's node factor:
/// 1.234 * 0.985 and 1.234 * 1.012345 feet for M2, 0.4 * 0.5 feet for S2. Phases are in units of
/// 1/600,000,000 degree at 05:00 UTC on 1 January 2000, midnight at the station's meridian: 75.5
/// degrees (the argument 120.5 less the epoch 45) for M2, 60 (0 less 300, plus 360) for S2, and half a
/// degree more a minute later.
pub fn worked_constants()
    ensures first_year { amplitude_of harbour_book harbour 0 0 ≡ pos 1215490 }
    ensures second_year { amplitude_of harbour_book harbour 1 0 ≡ pos 1249234 }
    ensures second_constituent { amplitude_of harbour_book harbour 1 1 ≡ pos 200000 }
    ensures argument_less_epoch { phase_of harbour_book harbour 0 (pos 15778380) 0 ≡ 45300000000 }
    ensures round_the_circle { phase_of harbour_book harbour 0 (pos 15778380) 1 ≡ 36000000000 }
    ensures a_minute_later { phase_of harbour_book harbour 0 (pos 15778381) 1 ≡ 36300000000 }
{}

/// Proves levels that another program computed; times are UTC. The tide of `pier`, of 12 hours with
/// an amplitude of one foot, is at 0.999962 feet at 11:59 on 10 January 2000. If it is 60 degrees
/// ahead from 2000 on (`shifted_book`), its level is 0.5 feet at 22:00 and 0.866025 at 23:00 on 31
/// December 1999, 0.75 at the new year (the mean of both years' levels), 0 at 01:00 and -0.5 at
/// 02:00; 23:01 is the first minute of the blend. The other station, `harbour`, is at 3.004334 feet
/// at 05:00 on 1 January 2000, at 1.902766 at 00:20 on 1 January 2001 (in the blend), and at
/// 1.303827 at 00:00 on 1 March 2001. `predicted_millionths` is in millionths of a foot;
/// `predicted_level` is in billionths of a millionth of a foot, multiplied by 4,147,200,000 (the
/// total weight of a blend).
pub fn worked_levels()
    ensures noon { predicted_millionths pier_book pier (pos 15791759) ≡ pos 999962 }
    ensures two_hours_before { predicted_millionths shifted_book pier (pos 15777960) ≡ pos 500000 }
    ensures an_hour_before { predicted_millionths shifted_book pier (pos 15778020) ≡ pos 866025 }
    ensures first_blended { predicted_level shifted_book pier (pos 15778021) ≡ pos 3609538927329170264000000 }
    ensures new_year { predicted_millionths shifted_book pier (pos 15778080) ≡ pos 750000 }
    ensures an_hour_after { predicted_millionths shifted_book pier (pos 15778140) ≡ pos 0 }
    ensures two_hours_after { predicted_millionths shifted_book pier (pos 15778200) ≡ negsuc 499999 }
    ensures harbour_2000 { predicted_millionths harbour_book harbour (pos 15778380) ≡ pos 3004334 }
    ensures harbour_new_year { predicted_level harbour_book harbour (pos 16305140) ≡ pos 7891150378810916147200000 }
    ensures harbour_2001 { predicted_millionths harbour_book harbour (pos 16390080) ≡ pos 1303827 }
{}

/// Proves slopes that another program computed; times are UTC. The tide of `pier`, highest at noon,
/// rises at 11:59 on 10 January 2000, and its slope is 0 at 12:00. If it is 60 degrees ahead from
/// 2000 on (`shifted_book`), it still rises at 23:27 on 31 December 1999 and falls at 23:28, both
/// in the blend at the new year. At the other station, `harbour`, the slope is -0.0129 feet a
/// minute at 05:00 on 1 January 2000, -0.0230 at 00:20 on 1 January 2001 (in the blend), and 0.0056
/// at 00:00 on 1 March 2001. Slopes are in feet a minute, multiplied by
/// 10^15 * 34,377,467,708 * 4,147,200,000 (34,377,467,708 units of angle are a radian, and
/// 4,147,200,000 is the total weight of a blend); `negsuc n` is -(n + 1).
pub fn worked_slopes()
    ensures before_noon { predicted_slope pier_book pier (pos 15791759) ≡ pos 10857205785600000000000000000000 }
    ensures noon { predicted_slope pier_book pier (pos 15791760) ≡ pos 0 }
    ensures blended_rising { predicted_slope shifted_book pier (pos 15778047) ≡ pos 4879827205568036746907580000000 }
    ensures blended_falling { predicted_slope shifted_book pier (pos 15778048) ≡ negsuc 37693987889375898819747839999999 }
    ensures harbour_2000 { predicted_slope harbour_book harbour (pos 15778380) ≡ negsuc 1845505594810030997276992511999999 }
    ensures harbour_new_year { predicted_slope harbour_book harbour (pos 16305140) ≡ negsuc 3274988533158132834799953510399999 }
    ensures harbour_2001 { predicted_slope harbour_book harbour (pos 16390080) ≡ pos 802828425453686744053872844800000 }
{}

/// Proves the four sums over the waves of a year: `amount` of the amplitudes, in millionths of a
/// unit; `steep` of amplitude times speed, with speeds in units of 1/600,000,000 degree a minute;
/// and the bounds on the change in a minute of the level (`near`, in 10^-15 of a unit) and of the
/// slope (`far`, in 10^-15 of a unit a minute, multiplied by 34,377,467,708, the units of angle in
/// a radian). The waves are: one with an amplitude of one unit and half a degree a minute, which
/// changes the level by at most 0.008727001 units a minute; none; and the two of `harbour` in 2000
/// (year 0) and in 2001 (year 1).
pub fn worked_sums()
    ensures one_wave { sums_of (small_wave ∷ [])
        ≡ record { amount = pos 1000000; steep = pos (3 * 10 ^ 14); near = pos 8727001000000; far = pos 2618100300000000000000 } }
    ensures no_wave { sums_of [] ≡ record { amount = pos 0; steep = pos 0; near = pos 0; far = pos 0 } }
    ensures harbour_2000 { sums_of (waves_of harbour_book harbour 0)
        ≡ record { amount = pos 1615490; steep = pos 472298888140580; near = pos 13739175163240; far = pos 4017639740183984896080 } }
    ensures harbour_2001 { sums_of (waves_of harbour_book harbour 1)
        ≡ record { amount = pos 1449234; steep = pos 422079284261828; near = pos 12278286689384; far = pos 3576482855350780498128 } }
{}

/// Proves approximate levels; times are UTC, and exact levels are in brackets. On 10 January 2000
/// the level at `pier` is 0.999948 feet at 11:59 (0.999962) and 1.000014 at 12:00 (1, the highest).
/// At `harbour` it is 3.003887 feet at 05:00 on 1 January 2000 (3.004334) and 1.303894 at 00:00 on
/// 1 March 2001 (1.303827). By `shifted_book`, at 23:01 on 31 December 1999, in the blend at a new
/// year, it is exact. Levels are in billionths of a millionth of a foot, multiplied by
/// 4,147,200,000 (the total weight of a blend).
pub fn worked_approximate_levels()
    ensures before_noon { approximate_level_of pier_book pier (pos 15791759) ≡ pos 4146985539993600000000000 }
    ensures noon { approximate_level_of pier_book pier (pos 15791760) ≡ pos 4147257330892800000000000 }
    ensures first_blended { approximate_level_of shifted_book pier (pos 15778021) ≡ pos 3609538927329170264000000 }
    ensures harbour_2000 { approximate_level_of harbour_book harbour (pos 15778380) ≡ pos 12457719256080973824000000 }
    ensures harbour_2001 { approximate_level_of harbour_book harbour (pos 16390080) ≡ pos 5407510534932765081600000 }
{}

/// Proves approximate slopes; times are UTC, and exact slopes are in brackets, in millionths of a
/// foot a minute. On 10 January 2000 the slope at `pier` is 76.92 at 11:59 (76.15) and -3.43 at
/// 12:00, the high water (0). At `harbour` it is -12,945.58 at 05:00 on 1 January 2000 (-12,944.54)
/// and 5,630.96 at 00:00 on 1 March 2001 (5,631.11); at 00:20 on 1 January 2001, in the blend at a
/// new year, it is exact. In the clauses, slopes are in feet a minute, multiplied by
/// 10^15 * 34,377,467,708 * 4,147,200,000 (34,377,467,708 units of angle are a radian, and
/// 4,147,200,000 is the total weight of a blend); `negsuc n` is -(n + 1).
pub fn worked_approximate_slopes()
    ensures before_noon { approximate_slope_of pier_book pier (pos 15791759) ≡ pos 10966753424415758745600000000000 }
    ensures noon { approximate_slope_of pier_book pier (pos 15791760) ≡ negsuc 489223201089178828799999999999 }
    ensures harbour_new_year { approximate_slope_of harbour_book harbour (pos 16305140)
        ≡ negsuc 3274988533158132834799953510399999 }
    ensures harbour_2000 { approximate_slope_of harbour_book harbour (pos 15778380) ≡ negsuc 1845654590730777639392378879999999 }
    ensures harbour_2001 { approximate_slope_of harbour_book harbour (pos 16390080) ≡ pos 802807544580466355289980928000000 }
{}

/// Proves bounds on the errors of approximate levels and slopes at all minutes: 0.0004 feet and
/// 0.0000036 feet a minute for `pier`, with one wave of one foot; 0.00065 feet and 0.0000056 feet a
/// minute for `harbour`, with two waves, by the amplitudes of 2000, which are larger than in 2001.
/// In the clauses, level errors are in feet, multiplied by 10^15 * 4,147,200,000 (the total weight
/// of a blend), and slope errors are in feet a minute, multiplied by
/// 10^15 * 34,377,467,708 * 4,147,200,000 (34,377,467,708 units of angle are a radian).
pub fn worked_errors()
    ensures pier_level { level_error_of (prediction_of pier_book pier) ≡ 1658880000000000000000 }
    ensures pier_slope { slope_error_of (prediction_of pier_book pier) ≡ 499787366400000000000000000000 }
    ensures harbour_level { level_error_of (prediction_of harbour_book harbour) ≡ 2679904051200000000000 }
    ensures harbour_slope { slope_error_of (prediction_of harbour_book harbour) ≡ 786917456744181350400000000000 }
{}
