//! A fast way to read the usual decimals: an optional `-`, at most 11 digits, and an optional
//! point. They are read in one pass with 64-bit arithmetic. The module `numbers` reads all
//! decimals.

ghost use Rattle.std.specs.Prelude.{◌≡◌, ◌+◌, ◌-◌, ◌*◌, ◌%◌, ◌^◌, ◌<◌, ◌≤◌, ◌∷◌, ◌++◌, [], Ok, take, if◌then◌else◌, IfSome, IsTrue};
ghost use Rattle.std.specs.List.{prefix_len};
ghost use Rattle.std.specs.Char.{is_ascii_digit};
ghost use Rattle.std.specs.Str.Parse.{digits_value_after};
ghost use Rattle.decimal_text.specs.Decimal.{signed};
ghost use Rattle.harmonics_text.specs.Rules.{in_scale};
ghost use Rattle.harmonics_text.specs.Workings.Plain.{IsFirstNumber, ends_token};

use crate::lines::{is_blank, visible_at};
use crate::names::without_byte;
use crate::scale::Scale;

/// The most digits of a decimal that this module reads, so that it fits 64 bits in any unit.
const MOST_DIGITS: usize = 11;

/// Reads the digits that `text` begins with. Returns the number whose digits are those of `before`
/// and then these, modulo 2^64, and how many digits of `text` were read.
fn digits_after(before: u64, text: &[u8]) -> (u64, usize)
    ensures count { result.1 ≡ prefix_len is_ascii_digit text.now }
    ensures value { result.0 ≡ digits_value_after 10 before (take result.1 text.now) % 2 ^ 64 }
{
    let mut value = before;
    for (count, byte) in text.iter().enumerate() {
        if !byte.is_ascii_digit() {
            return (value, count);
        }
        value = value.wrapping_mul(10).wrapping_add(u64::from(byte - b'0'));
    }
    (value, text.len())
}

/// Returns true and `text` without its first byte if this byte is `b`, and otherwise false and
/// `text`.
fn split_byte(text: &[u8], b: u8) -> (bool, &[u8])
    ensures { text.now ≡ (if result.0 then b ∷ [] else []) ++ result.1.now }
{
    match without_byte(text, b) {
        Some(rest) => (true, rest),
        None => (false, text),
    }
}

/// Returns true if `rest` is empty or begins with a space or a tab, so that a token before it ends.
fn ends_token(rest: &[u8]) -> bool
    ensures { result ≡ ends_token rest.now }
{
    match rest.split_first() {
        None => true,
        Some((first, _)) => is_blank(*first),
    }
}

/// Returns true if a decimal with `digits` digits, of which `places` are after its point, can be
/// read here: if it has 1 to 11 digits and at most `most` after the point, the decimal places of
/// its unit.
fn is_short(digits: usize, places: usize, most: u32) -> bool
    ensures { IsTrue result → (1 ≤ digits) × (digits ≤ 11) × (places ≤ most) }
{
    digits >= 1 && digits <= MOST_DIGITS && places <= most as usize
}

/// Returns 10^`exponent`, from a table; `exponent` is from 0 to 7.
#[inline(always)]
fn power_of_ten(exponent: u32) -> u64
    requires { exponent ≤ 7 }
    ensures { result ≡ 10 ^ exponent }
{
    match exponent {
        0 => 1,
        1 => 10,
        2 => 100,
        3 => 1_000,
        4 => 10_000,
        5 => 100_000,
        6 => 1_000_000,
        7 => 10_000_000,
        _ => 10u64.pow(exponent),
    }
}

/// Returns `number` times 10^`missing`: the decimal in its unit, if its digits write `number` and
/// it has `missing` decimal places less than the unit.
#[inline(always)]
fn in_units(number: u64, missing: u32) -> u64
    requires small { number < 10 ^ 11 }
    requires count_bound { missing ≤ 7 }
    ensures exact { result ≡ number * 10 ^ missing }
    ensures small { result < 10 ^ 18 }
{
    number * power_of_ten(missing)
}

/// Returns `size`, or minus `size` if `negative` is true.
fn signed(negative: bool, size: u64) -> i64
    requires { size < 10 ^ 18 }
    ensures { result ≡ signed negative size }
{
    let size = size as i64;
    if negative { -size } else { size }
}

/// Returns `value`, in the unit of `scale`, if it is in the range of `scale`, and otherwise `None`.
#[tactic(auto, unfolding(crate::specs::Rules::in_scale))]
fn within(value: i64, scale: Scale) -> Option<i64>
    ensures { IfSome result (λ n. in_scale scale (Ok value) ≡ Ok n) }
{
    if value < scale.least() || scale.most() < value {
        return None;
    }
    Some(value)
}

/// Returns the first token of `text` as a whole number in the unit of `scale`, and the bytes after
/// the token. Returns `None` if there is no token, or the token isn't an optional `-` and digits
/// with at most one point, has no digit or more than 11, has more digits after its point than the
/// unit has decimal places (7 or 6), or isn't in the range of `scale`. So `None` doesn't mean that
/// the token is bad.
#[inline(always)]
pub fn plain_number(text: &[u8], scale: Scale) -> Option<(i64, &[u8])>
    ensures { IfSome result (λ r. IsFirstNumber scale text.now r.0 r.1.now) }
{
    let start = visible_at(text)?;
    let (_, visible) = text.split_at(start);
    let (negative, body) = split_byte(visible, b'-');
    let (whole, count) = digits_after(0, body);
    let (_, tail) = body.split_at(count);
    let (_pointed, fraction) = split_byte(tail, b'.');
    let (number, places) = digits_after(whole, fraction);
    let (_, rest) = fraction.split_at(places);
    let digits = count + places;
    if !is_short(digits, places, scale.places()) {
        return None;
    }
    if !ends_token(rest) {
        return None;
    }
    let missing = scale.places() - places as u32;
    let value = within(signed(negative, in_units(number, missing)), scale)?;
    Some((value, rest))
}
