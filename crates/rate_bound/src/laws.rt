//! Theorems about the curves of every station.

ghost use Rattle.std.specs.Prelude.{◌≡◌, ℤ, Bool, length, Ok};
ghost use Rattle.curve_law.specs.CurveSpec.{IsLawful};
ghost use Rattle.harmonics_book.specs.declared.book.Station.{Station};
ghost use Rattle.harmonics_book.specs.declared.book.Book.{Book};
ghost use Rattle.harmonics_book.specs.Books.{IsBook, IsStation};
ghost use Rattle.station_curve.specs.Curves.{Prediction, IsPrediction, curve_of};
ghost use Rattle.rate_bound.specs.declared.version.Version.{Version};
ghost use Rattle.rate_bound.specs.Scale.{IsScale};
ghost use Rattle.rate_bound.specs.Sizes.{slope_limit, mark_limit, IsBelow};
ghost use Rattle.rate_bound.specs.CurveSpecs.{turn_spec, mark_spec, predicted_turn, predicted_mark};

/// Proves that both curves of a station, its slope and its level less a mark, obey the law of
/// curves: minutes and values are within its limits, and in each minute of a cell (a stretch of
/// minutes) that has a rate, the value changes by at most this rate. The station's constants must
/// be within the limits: in each year the absolute values of its amplitudes sum to at most 10^9
/// millionths of its unit and, each multiplied by the speed in units of 1/600,000,000 degree a
/// minute, to at most 10^17.
pub fn curves_are_lawful()
    ensures turn { (version : Version) (c : Prediction) → IsPrediction c → IsLawful (turn_spec version c) }
    ensures mark { (version : Version) (c : Prediction) (times plus mark : ℤ) (slack : Bool) →
        IsPrediction c → IsScale times plus mark → IsLawful (mark_spec version c times plus mark slack) }
{}

/// Proves limits on the values of a station's curves at each of their minutes: a slope is below
/// 10^37 in absolute value, and a level less a mark below 5 * 10^36. Slopes are in the station's
/// unit a minute, multiplied by 10^15 * 34,377,467,708 * 4,147,200,000 (34,377,467,708 units of
/// angle are a radian, and 4,147,200,000 is the total weight of a blend); levels are in the
/// station's unit, multiplied by 10^21 * 4,147,200,000. `station_turn` and `station_mark` are about
/// curves of all minutes of a book's years, `turn` and `mark` about curves of the prediction's
/// minutes.
pub fn values_are_small()
    ensures turn { (version : Version) (c : Prediction) → IsPrediction c → IsBelow slope_limit (turn_spec version c) }
    ensures mark { (version : Version) (c : Prediction) (times plus mark : ℤ) (slack : Bool) →
        IsPrediction c → IsScale times plus mark → IsBelow mark_limit (mark_spec version c times plus mark slack) }
    ensures station_turn { (version : Version) (b : Book) (s : Station) (c : Prediction) →
        IsBook b → IsStation (length b.constituents) s → curve_of b s ≡ Ok c →
        IsBelow slope_limit (predicted_turn version b s) }
    ensures station_mark { (version : Version) (b : Book) (s : Station) (c : Prediction) (times plus mark : ℤ) (slack : Bool) →
        IsBook b → IsStation (length b.constituents) s → curve_of b s ≡ Ok c → IsScale times plus mark →
        IsBelow mark_limit (predicted_mark version b s times plus mark slack) }
{}
