//! Reading decimals.

ghost use Rattle.std.specs.Prelude.{
  ◌≡◌,
  ℕ,
  ◌+◌,
  ◌*◌,
  ◌/◌,
  ◌^◌,
  ◌<◌,
  ◌≤◌,
  List,
  take,
  drop,
  length,
  nat_lt,
  IfOk,
  unsigned_abs,
  option_copied,
};
ghost use Rattle.std.specs.List.{take_while, list_all};
ghost use Rattle.std.specs.Char.{is_ascii_digit};
ghost use Rattle.std.specs.Str.Parse.{digits_value};
ghost use Rattle.decimal_text.specs.Decimal.{read_of, after_point, made_of, scaled_or_bad};

use crate::fault::DecimalFault;
use crate::sign::split_sign;
use crate::steps::{Steps, power_of_ten};

/// The most digits that a decimal may have before its point.
const MOST_WHOLE_DIGITS: usize = 18;

/// Returns the decimal `text` as a whole number of steps of `1 / 10^places`, exactly: for `1.5` and
/// 2 places, 150. `places` is from 0 to 9, and the result is below `10^27` in absolute value.
///
/// A decimal is an optional `+` or `-`, digits, and an optional point with or without digits after
/// it; it has at least one digit. The text is read once, whatever its length. It doesn't allocate.
///
/// # Errors
/// The first that applies. [`DecimalFault::BadForm`]: if `text` isn't a decimal.
/// [`DecimalFault::TooLong`]: if it has more than 18 digits before the point, zeros included.
/// [`DecimalFault::TooFine`]: if a digit after the first `places` decimal places isn't 0.
///
/// # Examples
/// ```
/// assert_eq!(rt; read(b"-1.50", 2), Ok(-150));
/// assert_eq!(rt; read(b"1.234", 2), Err(DecimalFault::TooFine));
/// ```
pub fn read(text: &[u8], places: u32) -> Result<i128, DecimalFault>
    requires { places ≤ 9 }
    ensures exact { result ≡ read_of text.now places }
    ensures small { IfOk result (λ n. unsigned_abs n < 10 ^ 27) }
{
    let (negative, body) = split_sign(text);
    let (value, count) = whole_digits(body);
    let (whole, rest) = body.split_at(count);
    match after_point(rest) {
        None => Err(DecimalFault::BadForm),
        Some(fraction) => read_parts(negative, whole, value, fraction, places),
    }
}

/// Returns the number that the digits at the start of `body` write, and how many digits these are.
/// If they are more than 18, the number is the one that the first 18 write, and isn't used.
fn whole_digits(body: &[u8]) -> (u64, usize)
    ensures count { result.1 ≡ length (take_while is_ascii_digit body.now) }
    ensures value { result.1 ≤ 18 → result.0 ≡ digits_value 10 (take_while is_ascii_digit body.now) }
    ensures small { result.0 < 10 ^ 18 }
{
    let mut value = 0;
    for (count, byte) in body.iter().enumerate() {
        if !byte.is_ascii_digit() {
            return (value, count);
        }
        if count < MOST_WHOLE_DIGITS {
            value = value * 10 + u64::from(byte - b'0');
        }
    }
    (value, body.len())
}

/// Returns the bytes after the point if `rest` begins with a point, no bytes if `rest` is empty,
/// and `None` if it begins with another byte.
fn after_point(rest: &[u8]) -> Option<&[u8]>
    ensures { option_copied result ≡ after_point rest.now }
{
    if rest.is_empty() {
        return Some(rest);
    }
    let (first, fraction) = rest.split_at(1);
    if first[0] == b'.' {
        Some(fraction)
    } else {
        None
    }
}

/// Returns true if a decimal has a byte before or after its point.
fn have_digit(whole: &[u8], fraction: &[u8]) -> bool
    ensures { result ≡ nat_lt 0 (length whole.now + length fraction.now) }
{
    !whole.is_empty() || !fraction.is_empty()
}

/// Returns the decimal in parts as a number of steps of `1 / 10^places`. It is negative if
/// `negative` is true; `whole` has the digits before the point, which write `value`, and `fraction`
/// the bytes after the point.
///
/// # Errors
/// The errors of [`read`].
fn read_parts(
    negative: bool,
    whole: &[u8],
    value: u64,
    fraction: &[u8],
    places: u32,
) -> Result<i128, DecimalFault>
    requires count_bound { places ≤ 9 }
    requires small { value < 10 ^ 18 }
    requires whole { length whole.now ≤ 18 → value ≡ digits_value 10 whole.now }
    ensures exact { result ≡ scaled_or_bad places (made_of negative whole.now fraction.now) }
    ensures small { IfOk result (λ n. unsigned_abs n < 10 ^ 27) }
{
    let Some(steps) = Steps::over(fraction, places) else {
        return Err(DecimalFault::BadForm);
    };
    if !have_digit(whole, fraction) {
        return Err(DecimalFault::BadForm);
    }
    if whole.len() > MOST_WHOLE_DIGITS {
        return Err(DecimalFault::TooLong);
    }
    if !steps.exact {
        return Err(DecimalFault::TooFine);
    }
    let size = total_steps(value, places, steps.total()) as i128;
    Ok(if negative { -size } else { size })
}

/// Returns the number of steps of `1 / 10^places` in the whole number `whole` and a fraction of
/// `part` steps.
fn total_steps(whole: u64, places: u32, part: u64) -> u128
    requires count_bound { places ≤ 9 }
    requires small { whole < 10 ^ 18 }
    requires part { part < 10 ^ 9 }
    ensures exact { result ≡ whole * 10 ^ places + part }
    ensures small { result < 10 ^ 27 }
{
    u128::from(whole) * u128::from(power_of_ten(places)) + u128::from(part)
}
