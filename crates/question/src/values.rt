//! Parsing texts as the values of keys.

ghost use Rattle.std.specs.Prelude.{◌≡◌, ◌<◌, ◌≤◌, ◌^◌, nat_lt, true, if◌then◌else◌, length, IfOk, Some, None};
ghost use Rattle.std.specs.Option.{ForSome};
ghost use Rattle.std.specs.List.{list_all};
ghost use Rattle.std.specs.Char.{is_ascii_digit};
ghost use Rattle.std.specs.Str.Parse.{digits_value};
ghost use Rattle.question.specs.Forms.{some_text, parse_number, seed_of, port_of, step_of, mark_of};

use decimal_text::{Text, are_digits, read};
use std::alloc::{AllocError, Global};

/// The decimal places of a mark that can be other than 0: a mark is a whole number of millionths.
const MARK_PLACES: u32 = 6;

/// The greatest mark, in millionths of the station's unit; the least is its negative.
const GREATEST_MARK: u128 = 10_000_000_000;

/// Returns `text`, or `None` if it is empty.
///
/// # Errors
/// [`AllocError`] if memory runs out.
#[tactic(auto, unfolding(crate::specs::Forms::some_text))]
pub fn some_text(alloc: Global, text: &str) -> Result<Option<Text>, AllocError>
    ensures { IfOk result (λ value. value ≡ some_text text.now) }
{
    if text.is_empty() {
        return Ok(None);
    }
    Ok(Some(Text::from_str(alloc, text)?))
}

/// Returns the number that `digits`, one or more, write in base 10, or `None` if it is greater than
/// 2^64 - 1.
fn value(digits: &str) -> Option<u64>
    requires some { 0 < length digits.now }
    requires digits { list_all is_ascii_digit digits.now ≡ true }
    ensures { result ≡ (if nat_lt (digits_value 10 digits.now) (2 ^ 64) then Some (digits_value 10 digits.now) else None) }
{
    digits.parse().ok()
}

/// Returns the number that `text` writes with 1 to `digits` decimal digits. Returns `None` for any
/// other text, or if the number isn't from `least` to `most`, both included.
#[tactic(auto, unfolding(crate::specs::Forms::parse_number))]
pub fn number(text: &str, digits: usize, least: u64, most: u64) -> Option<u64>
    ensures value { result ≡ parse_number digits least most text.now }
    ensures range { ForSome result (λ n. n ≤ most) }
{
    if text.is_empty() || text.len() > digits || !are_digits(text.as_bytes()) {
        return None;
    }
    let number = value(text)?;
    if least <= number && number <= most {
        Some(number)
    } else {
        None
    }
}

/// Parses `text`, 1 to 20 digits, as the seed of a sample file. Returns `None` unless it is a
/// number from 0 to 2^64 - 1.
pub fn seed(text: &str) -> Option<u64>
    ensures { result ≡ seed_of text.now }
{
    number(text, 20, 0, u64::MAX)
}

/// Parses `text`, 1 to 5 digits, as the port of the web server. Returns `None` unless it is a
/// number from 1 to 65,535.
pub fn port(text: &str) -> Option<u16>
    ensures { result ≡ port_of text.now }
{
    let number = number(text, 5, 1, 65535)?;
    Some(number as u16)
}

/// Parses `text`, 1 to 6 digits, as the minutes from one height to the next. Returns `None` unless
/// it is a number from 1 to 44,640.
pub fn step(text: &str) -> Option<i64>
    ensures { result ≡ step_of text.now }
{
    let number = number(text, 6, 1, 44640)?;
    Some(number as i64)
}

/// Parses `text`, a decimal such as `-0.5`, as a mark (a level or a speed), and returns it in
/// millionths of the station's unit. Returns `None` unless it is a whole number of millionths from
/// -10,000,000,000 to 10,000,000,000. Only zeros can follow the sixth decimal place, and at most 18
/// digits can precede the point.
#[tactic(auto, unfolding(crate::specs::Forms::mark_of))]
pub fn mark(text: &str) -> Option<i64>
    ensures { result ≡ mark_of text.now }
{
    match read(text.as_bytes(), MARK_PLACES) {
        Ok(millionths) if millionths.unsigned_abs() <= GREATEST_MARK => Some(millionths as i64),
        _ => None,
    }
}
