//! Whole numbers written in digits only, without a sign.

ghost use Rattle.std.specs.Prelude.{◌≡◌, ◌<◌, ◌≤◌, ◌^◌, true, length};
ghost use Rattle.std.specs.Option.{ForSome};
ghost use Rattle.std.specs.List.{list_all};
ghost use Rattle.std.specs.Char.{is_ascii_digit};
ghost use Rattle.std.specs.Str.Parse.{digits_value};
ghost use Rattle.decimal_text.specs.Digits.{digits_of};

/// The greatest number of digits that always fit 64 bits.
const HALF_DIGITS: usize = 19;

/// The least number with one digit more, 10^19.
const HALF: u128 = 10_000_000_000_000_000_000;

/// Returns true if each byte of `text` is an ASCII digit, also if `text` is empty.
pub fn are_digits(text: &[u8]) -> bool
    ensures { result ≡ list_all is_ascii_digit text.now }
{
    text.iter().all(|byte| byte.is_ascii_digit())
}

/// Returns the number that the digits in `text` write, at most 19 of them; 0 if `text` is empty.
/// The caller has checked that each byte is a digit.
pub fn digits_value(text: &[u8]) -> u64
    requires count_bound { length text.now ≤ 19 }
    requires digits { list_all is_ascii_digit text.now ≡ true }
    ensures value { result ≡ digits_value 10 text.now }
    ensures small { result < 10 ^ length text.now }
{
    let mut value = 0;
    for byte in text {
        value = value * 10 + u64::from(*byte - b'0');
    }
    value
}

/// Returns the number that the digits in `text` write, at most 38 of them; 0 if `text` is empty.
/// The caller has checked that each byte is a digit.
pub fn wide_digits_value(text: &[u8]) -> u128
    requires count_bound { length text.now ≤ 38 }
    requires digits { list_all is_ascii_digit text.now ≡ true }
    ensures value { result ≡ digits_value 10 text.now }
    ensures small { result < 10 ^ length text.now }
{
    if text.len() <= HALF_DIGITS {
        return u128::from(digits_value(text));
    }
    let (front, back) = text.split_at(text.len() - HALF_DIGITS);
    u128::from(digits_value(front)) * HALF + u128::from(digits_value(back))
}

/// Returns the number that `text` writes if it has 1 to `most` bytes, all of them ASCII digits, and
/// otherwise `None`. `most` is at most 38.
#[tactic(auto, unfolding(crate::specs::Digits::digits_of))]
pub fn wide_digits(text: &[u8], most: usize) -> Option<u128>
    requires { most ≤ 38 }
    ensures value { result ≡ digits_of most text.now }
    ensures small { ForSome result (λ n. n < 10 ^ most) }
{
    if text.is_empty() || text.len() > most || !are_digits(text) {
        return None;
    }
    Some(wide_digits_value(text))
}

/// Returns the number that `text` writes if it has 1 to `most` bytes, all of them ASCII digits, and
/// otherwise `None`. `most` is at most 18.
///
/// # Examples
/// ```
/// assert_eq!(rt; digits(b"0019", 4), Some(19));
/// assert_eq!(rt; digits(b"+19", 4), None);
/// ```
pub fn digits(text: &[u8], most: usize) -> Option<u64>
    requires { most ≤ 18 }
    ensures value { result ≡ digits_of most text.now }
    ensures small { ForSome result (λ n. n < 10 ^ most) }
{
    Some(wide_digits(text, most)? as u64)
}
