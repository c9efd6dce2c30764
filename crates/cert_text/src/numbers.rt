//! Reading whole numbers from text.

ghost use Rattle.std.specs.Prelude.{◌≡◌, ◌<◌, ◌≤◌, ◌^◌, IfSome, option_and_then, unsigned_abs};
ghost use Rattle.cert_text.specs.Workings.LineReading.{after, size_of, negative, parse_number};

use crate::lines::after;
use decimal_text::wide_digits;

/// The greatest number of decimal digits that are read for a number in a certificate: a level or a
/// mark, in millionths of the station's unit, or a number of minutes.
pub const LEVEL_DIGITS: usize = 14;

/// Returns the number that `text` writes with 1 to `most` decimal digits; `most` is at most 38.
/// Returns `None` for any other text, and for a leading zero before further digits.
#[tactic(auto, unfolding(crate::specs::Workings::LineReading::size_of))]
pub fn size_of(text: &[u8], most: usize) -> Option<u128>
    requires { most ≤ 38 }
    ensures value { result ≡ size_of most text.now }
    ensures small { IfSome result (λ n. n < 10 ^ most) }
{
    if text.len() > 1 && text[0] == b'0' {
        return None;
    }
    wide_digits(text, most)
}

/// Returns `-size`, or `None` if `size` is 0, since `-0` is refused.
fn negative(size: u128) -> Option<i128>
    requires { size < 10 ^ 38 }
    ensures { result ≡ negative size }
{
    if size == 0 {
        None
    } else {
        Some(-(size as i128))
    }
}

/// Returns the number that `text` writes with 1 to `most` decimal digits, after `-` if it is
/// negative; `most` is at most 38. Returns `None` for any other text, for a leading zero before
/// further digits, and for `-0`.
#[tactic(auto, unfolding(crate::specs::Workings::LineReading::parse_number))]
pub fn parse_number(text: &[u8], most: usize) -> Option<i128>
    requires { most ≤ 38 }
    ensures value { result ≡ parse_number most text.now }
    ensures small { IfSome result (λ z. unsigned_abs z < 10 ^ most) }
{
    match after(b"-".as_slice(), text) {
        Some(digits) => negative(size_of(digits, most)?),
        None => Some(size_of(text, most)? as i128),
    }
}

/// Returns the level, in millionths of the station's unit, that follows `word` on `line`. Returns
/// `None` if `line` isn't `word` and then a number of 1 to 14 decimal digits, after `-` if it is
/// negative. A leading zero before further digits, and `-0`, aren't accepted.
pub fn level_after(word: &[u8], line: &[u8]) -> Option<i64>
    ensures { result ≡ option_and_then (parse_number LEVEL_DIGITS) (after word.now line.now) }
{
    let level = parse_number(after(word, line)?, LEVEL_DIGITS)?;
    Some(level as i64)
}
