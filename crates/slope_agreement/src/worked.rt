//! Gaps and bounds that were computed elsewhere.

ghost use Rattle.std.specs.Prelude.{◌≡◌, ◌*◌, [], ◌∷◌, pos};
ghost use Rattle.harmonics_book.specs.declared.book.Units.TheVariants.{Feet};
ghost use Rattle.station_curve.specs.Curves.{prediction_of};
ghost use Rattle.station_curve.specs.Worked.{small_station, pier_book, pier, harbour_book, harbour};
ghost use Rattle.slope_agreement.specs.Agreements.{predicted_gap, predicted_gap_before, agreement_of, predicted_agreement};
ghost use Rattle.slope_agreement.specs.UnitGaps.{unit_gap_of};

/// Proves examples of the bound on the difference between the change of the cosine in a minute and its
/// slope, for waves with a speed of 0, one unit of 1/600,000,000 degree, the speed of M2, half a degree
/// and six degrees a minute. The bounds are in billionths times 34,377,467,708 (the units of angle in a
/// radian).
#[tactic(auto, unfolding(fixed_sine::specs::Rate::step_of, crate::specs::UnitGaps::unit_gap_of))]
pub fn worked_unit_gaps()
    ensures still { unit_gap_of 0 ≡ 68754935416 }
    ensures one_unit { unit_gap_of 1 ≡ 68755035417 }
    ensures lunar { unit_gap_of 289841042 ≡ 2472840648573408 }
    ensures half_a_degree { unit_gap_of 300000000 ≡ 2648169054935416 }
    ensures six_degrees { unit_gap_of 3600000000 ≡ 377366472354935416 }
{}

/// Proves examples of the bound on the difference between a station's rise in a minute and its slope:
/// for a tide of 12 hours with an amplitude of one unit; for the same tide with a node factor that is
/// greatest in the second of three years; for two constituents that are larger in the first of two
/// years; and for no tide. The bounds are in billionths of a millionth of the station's unit a minute,
/// times 34,377,467,708 (the units of angle in a radian) and 4,147,200,000 (the total weight of a
/// blend).
pub fn worked_agreements()
    ensures tide { agreement_of (prediction_of pier_book pier) ≡ pos 10982486704628157235200000000000 }
    ensures one_wave { predicted_agreement pier_book pier ≡ pos 10982486704628157235200000000000 }
    ensures second_year { predicted_agreement (record pier_book { factors = pos 1000000 ∷ pos 1200000 ∷ pos 900000 ∷ [] }) pier
        ≡ pos 13178984045553788682240000000000 }
    ensures first_year { predicted_agreement harbour_book harbour ≡ pos 16858287966955586830516224000000 }
    ensures no_tide { predicted_agreement pier_book (small_station (pos 0) Feet) ≡ pos 0 }
{}

/// Proves examples of the size of the difference between the rise of a station's level in a minute and
/// the slope at its beginning (`predicted_gap`) or its end (`predicted_gap_before`), at single minutes
/// of two stations, two of them at a high water. The unit is billionths of a millionth of the station's
/// unit a minute, times 34,377,467,708 (the units of angle in a radian) and 4,147,200,000 (the total
/// weight of a blend).
pub fn worked_gaps()
    ensures midnight { predicted_gap pier_book pier (pos 15791040) ≡ 4147200000 * 1000000 * 1309093970320640 }
    ensures before { predicted_gap_before pier_book pier (pos 15791039) ≡ 4147200000 * 1000000 * 1309093970320640 }
    ensures harbour_2000 { predicted_gap harbour_book harbour (pos 15778380) ≡ 2604381509775785907188736000000 }
    ensures harbour_2001 { predicted_gap harbour_book harbour (pos 16390080) ≡ 6070143806716623885374054400000 }
{}
