//! Theorems about the table of sines, and about every station.

ghost use Rattle.std.specs.Prelude.{◌≡◌, ℕ, ◌-◌, ◌*◌, ◌<◌, ◌≤◌, length, None, ℤ, pos, ◌+ℤ◌, ◌-ℤ◌, ◌*ℤ◌, ◌≤ℤ◌, unsigned_abs};
ghost use Rattle.fixed_sine.specs.Circle.{degree, radian};
ghost use Rattle.fixed_sine.specs.Table.{sine_at, rise, correction};
ghost use Rattle.harmonics_book.specs.declared.book.Station.{Station};
ghost use Rattle.harmonics_book.specs.declared.book.Book.{Book};
ghost use Rattle.harmonics_book.specs.Books.{IsBook, IsStation};
ghost use Rattle.station_curve.specs.Curves.{first_fault, prediction_of, IsPrediction};
ghost use Rattle.slope_agreement.specs.Agreements.{predicted_gap, predicted_gap_before, IsPlainMinute, agreement_of, predicted_agreement};

/// Proves two checks of the whole table of sines, which are in billionths: at the beginning and at
/// the end of each degree, the slope of the interpolated sine, in billionths a radian, is within
/// 30,000 of the cosine, the sine of the complement. Both are multiplied by `4 * degree`
/// (2,400,000,000).
pub fn table_checks()
    ensures begins { (k : ℕ) → k < 90 → unsigned_abs
        ((pos radian *ℤ ((pos 4 *ℤ rise k) -ℤ correction k)) -ℤ (pos (4 * degree) *ℤ sine_at (pos (90 - k))))
        ≤ 4 * degree * 30000 }
    ensures ends { (k : ℕ) → k < 90 → unsigned_abs
        ((pos radian *ℤ ((pos 4 *ℤ rise k) +ℤ correction k)) -ℤ (pos (4 * degree) *ℤ sine_at (pos (89 - k))))
        ≤ 4 * degree * 30000 }
{}

/// Proves that `agreement_of` a curve of all minutes is `predicted_agreement`, which sums over all
/// constituents of the book; and that it is a bound, if the station's constants exceed no limit in
/// any year: at each minute outside the blends at new years, the rise of the level to the next
/// minute differs by at most this bound from the slope at the beginning of the minute, and also
/// from the slope at its end.
pub fn predicted_agreements()
    ensures value { (b : Book) (s : Station) → IsPrediction (prediction_of b s) → agreement_of (prediction_of b s) ≡ predicted_agreement b s }
    ensures law { (b : Book) (s : Station) (m : ℤ) (year : ℕ) → IsBook b → IsStation (length b.constituents) s
        → first_fault b s b.years ≡ None
        → IsPlainMinute b.first_year b.years m year → pos (predicted_gap b s m) ≤ℤ predicted_agreement b s }
    ensures before { (b : Book) (s : Station) (m : ℤ) (year : ℕ) → IsBook b → IsStation (length b.constituents) s
        → first_fault b s b.years ≡ None
        → IsPlainMinute b.first_year b.years m year → pos (predicted_gap_before b s m) ≤ℤ predicted_agreement b s }
{}
