//! Theorems about decimals, and examples of the definitions.

ghost use Rattle.std.specs.Prelude.{◌≡◌, Some, None, Ok, Err, pos, negsuc, [], codes};
ghost use Rattle.decimal_text.specs.Decimal.{read_of, ReadsItsFraction, TooFineIsNoFraction};
ghost use Rattle.decimal_text.specs.Digits.{digits_of};
ghost use Rattle.decimal_text.specs.Rounding.{rounded_of};
ghost use Rattle.decimal_text.specs.Writing.{write_of};
ghost use Rattle.decimal_text.specs.declared.fault.DecimalFault.TheVariants.{BadForm, TooLong, TooFine};
ghost use Rattle.decimal_text.specs.declared.limits.TheConstants.{MOST_BYTES};

/// Proves that a number `n` that [`crate::read`] returns for a text and `places` is exact: the text
/// writes the fraction `n / 10^places`. Also proves that no whole number `n` is exact for a text
/// that it refuses as [`crate::DecimalFault::TooFine`].
pub fn reads_its_fraction()
    ensures read { ReadsItsFraction }
    ensures too_fine { TooFineIsNoFraction }
{}

/// Proves examples of decimals that are read: the text, the number of decimal places, and the
/// result, a whole number of steps of `1 / 10^places` or the first error that applies. In
/// `negative`, `-1.50` is read as -150 hundredths; `negsuc n` is -(n + 1).
#[tactic(auto, unfolding(crate::specs::Decimal::read_of, crate::specs::Decimal::decimal_of, crate::specs::Decimal::after_point, crate::specs::Decimal::made_of, crate::specs::Decimal::scaled_or_bad, crate::specs::Decimal::scaled))]
pub fn worked_readings()
    ensures negative { read_of (codes "-1.50") 2 ≡ Ok (negsuc 149) }
    // No digit is needed before the point.
    ensures point_first { read_of (codes ".5") 6 ≡ Ok (pos 500000) }
    // A `+` is allowed, and no digit is needed after the point.
    ensures point_last { read_of (codes "+5.") 1 ≡ Ok (pos 50) }
    // A zero after the allowed decimal places is read.
    ensures zero_past_places { read_of (codes "1.230") 2 ≡ Ok (pos 123) }
    // A digit other than 0 after them is an error.
    ensures too_fine { read_of (codes "1.234") 2 ≡ Err TooFine }
    // An empty text has no digit.
    ensures empty { read_of [] 2 ≡ Err BadForm }
    // A point is not a decimal.
    ensures point_alone { read_of (codes ".") 2 ≡ Err BadForm }
    // 18 digits before the point are allowed.
    ensures most_digits { read_of (codes "012345678901234567") 0 ≡ Ok (pos 12345678901234567) }
    // 19 digits aren't, not even if the first is 0.
    ensures too_long { read_of (codes "0123456789012345678") 0 ≡ Err TooLong }
    // A byte that isn't a digit is reported before the length.
    ensures bad_before_long { read_of (codes "0123456789012345678x") 0 ≡ Err BadForm }
    // The length is reported before the digits after the decimal places.
    ensures long_before_fine { read_of (codes "0000000000000000001.55") 0 ≡ Err TooLong }
    // Two signs are a bad form.
    ensures two_signs { read_of (codes "+-5") 2 ≡ Err BadForm }
    // Two points are a bad form.
    ensures two_points { read_of (codes "1.2.3") 2 ≡ Err BadForm }
    // The number may exceed 64 bits.
    ensures greatest { read_of (codes "999999999999999999.9") 9 ≡ Ok (pos 999999999999999999900000000) }
{}

/// Proves examples of whole numbers that are read: the most digits allowed, the text, and the
/// number, or `None` if the text isn't 1 to that many digits. Zeros at the start are allowed
/// (`zeros_first`).
#[tactic(auto, unfolding(crate::specs::Digits::digits_of))]
pub fn worked_digits()
    ensures zeros_first { digits_of 4 (codes "0019") ≡ Some 19 }
    // An empty text isn't a number.
    ensures none { digits_of 4 [] ≡ None }
    // A text with more than `most` digits is refused.
    ensures one_more { digits_of 4 (codes "00019") ≡ None }
    // A sign is refused.
    ensures signed { digits_of 4 (codes "+19") ≡ None }
    // All 18 digits may be 9.
    ensures greatest { digits_of 18 (codes "999999999999999999") ≡ Some 999999999999999999 }
    // 2^64 is read where 20 digits are allowed.
    ensures past_64_bits { digits_of 20 (codes "18446744073709551616") ≡ Some 18446744073709551616 }
{}

/// Proves examples of decimals that are written: the number of steps of `1 / 10^places`, `places`,
/// and the text. A value between -1 and 1 has the digit 0 before the point (`below_one`).
/// `negsuc n` is -(n + 1).
pub fn worked_writings()
    ensures below_one { write_of (negsuc 4) 2 ≡ codes "-0.05" }
    // Zero has no sign.
    ensures zero { write_of (pos 0) 2 ≡ codes "0.00" }
    // Without decimal places there is no point.
    ensures no_places { write_of (negsuc 6) 0 ≡ codes "-7" }
    // Six decimal places are all written.
    ensures millionths { write_of (pos 3004334) 6 ≡ codes "3.004334" }
    // Zeros at the end are written.
    ensures zeros_behind { write_of (negsuc 99) 2 ≡ codes "-1.00" }
{}

/// Proves examples of rounding: the numerator, the denominator, and the nearest whole number; a
/// half is rounded away from 0, as 15 / 10 to 2 (`half`). `negsuc n` is -(n + 1).
#[tactic(auto, unfolding(crate::specs::Rounding::rounded_of))]
pub fn worked_roundings()
    ensures half { rounded_of (pos 15) 10 ≡ pos 2 }
    // 14 / 10 is rounded down to 1.
    ensures below_half { rounded_of (pos 14) 10 ≡ pos 1 }
    // -15 / 10 is rounded to -2: a half is rounded away from 0.
    ensures negative_half { rounded_of (negsuc 14) 10 ≡ negsuc 1 }
    // -4 / 10 is rounded to 0.
    ensures to_zero { rounded_of (negsuc 3) 10 ≡ pos 0 }
    // -5 / 10 is rounded to -1.
    ensures half_of_one { rounded_of (negsuc 4) 10 ≡ negsuc 0 }
    // 4 / 3 is rounded down to 1.
    ensures odd_unit { rounded_of (pos 4) 3 ≡ pos 1 }
{}

/// Proves the greatest length of a text that is read, 400,000,000 bytes.
pub fn worked_limits()
    // The limit is 400,000,000 bytes.
    ensures text { MOST_BYTES ≡ 400000000 }
{}
