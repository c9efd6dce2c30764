//! Theorems about approximate levels and slopes.

ghost use Rattle.std.specs.Prelude.{◌≤◌, ℤ, ◌-ℤ◌, unsigned_abs};
ghost use Rattle.station_curve.specs.Curves.{Prediction, IsPredicted, IsPrediction};
ghost use Rattle.station_curve.specs.Schureman.{predicted_level, predicted_slope};
ghost use Rattle.station_curve.specs.Approximate.{approximate_level_of, approximate_slope_of};
ghost use Rattle.station_curve.specs.Errors.{level_error_of, slope_error_of};

/// Proves that at each minute of a prediction the approximate level differs from the level by at
/// most `level_error_of` the prediction, and the approximate slope from the slope by at most
/// `slope_error_of` it. Levels are in the station's unit, multiplied by 10^15 * 4,147,200,000 (the
/// total weight of both years in the blend at a new year); slopes are in the station's unit a
/// minute, multiplied by 10^15 * 34,377,467,708 * 4,147,200,000 (34,377,467,708 units of angle are
/// a radian).
pub fn approximate_values()
    ensures level { (c : Prediction) (m : ℤ) → IsPrediction c → IsPredicted c m
        → unsigned_abs (approximate_level_of c.book c.station m -ℤ predicted_level c.book c.station m) ≤ level_error_of c }
    ensures slope { (c : Prediction) (m : ℤ) → IsPrediction c → IsPredicted c m
        → unsigned_abs (approximate_slope_of c.book c.station m -ℤ predicted_slope c.book c.station m) ≤ slope_error_of c }
{}
