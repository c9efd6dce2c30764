//! The numbers of a harmonics file: counts, years and decimals.

ghost use Rattle.std.specs.Prelude.{◌≡◌, Ok};
ghost use Rattle.harmonics_text.specs.Rules.{whole_of, count_of, first_year_of, in_scale, parse_number};

use crate::fault::Why;
use crate::lines::only_token;
use crate::scale::Scale;
use decimal_text::{DecimalFault, digits, read};

/// Returns the number in the line `text` if it is one token of one to nine digits, and otherwise
/// `None`.
#[tactic(auto, unfolding(crate::specs::Rules::whole_of))]
fn whole_number(text: &[u8]) -> Option<u32>
    ensures { result ≡ whole_of text.now }
{
    let number = digits(only_token(text)?, 9)?;
    Some(number as u32)
}

/// Returns the number of constituents or years in the line `text`, from 1 to 500.
///
/// # Errors
/// [`Why::BadCount`]: if the line isn't one token of one to nine digits, or the number isn't from 1
/// to 500.
#[tactic(auto, unfolding(crate::specs::Rules::count_of, crate::specs::Rules::from_to))]
pub fn count(text: &[u8]) -> Result<u32, Why>
    ensures { result ≡ count_of text.now }
{
    match whole_number(text) {
        None => Err(Why::BadCount),
        Some(n) => {
            if n >= 1 && n <= 500 {
                Ok(n)
            } else {
                Err(Why::BadCount)
            }
        }
    }
}

/// Returns the first calendar year in the line `text`, from 2 to 8800.
///
/// # Errors
/// [`Why::BadNumber`]: if the line isn't one token of one to nine digits. [`Why::OutOfRange`]: if
/// the number isn't from 2 to 8800.
#[tactic(auto, unfolding(crate::specs::Rules::first_year_of, crate::specs::Rules::from_to))]
pub fn first_year(text: &[u8]) -> Result<i32, Why>
    ensures { result ≡ first_year_of text.now }
{
    match whole_number(text) {
        None => Err(Why::BadNumber),
        Some(n) => {
            if n >= 2 && n <= 8800 {
                Ok(n as i32)
            } else {
                Err(Why::OutOfRange)
            }
        }
    }
}

/// Returns `value`, in the unit of `scale`, if it is in the range of `scale`, and otherwise the
/// fault [`Why::OutOfRange`].
#[tactic(auto, unfolding(crate::specs::Rules::in_scale))]
fn in_scale(value: i128, scale: Scale) -> Result<i64, Why>
    ensures { result ≡ in_scale scale (Ok value) }
{
    if value < i128::from(scale.least()) || i128::from(scale.most()) < value {
        return Err(Why::OutOfRange);
    }
    Ok(value as i64)
}

/// Returns the decimal `text` as a whole number in the unit of `scale`, such as 1,500,000
/// millionths for `1.5`.
///
/// # Errors
/// The first that applies. [`Why::BadNumber`]: if `text` isn't a decimal, or has more than 18
/// digits before its point. [`Why::TooFine`]: if a digit after the last decimal place of the unit
/// isn't 0. [`Why::OutOfRange`]: if the number is below the least or above the greatest value of
/// `scale`.
#[tactic(auto, unfolding(crate::specs::Rules::parse_number, crate::specs::Rules::in_scale))]
pub fn number(text: &[u8], scale: Scale) -> Result<i64, Why>
    ensures { result ≡ parse_number scale text.now }
{
    match read(text, scale.places()) {
        Ok(value) => in_scale(value, scale),
        Err(DecimalFault::TooFine) => Err(Why::TooFine),
        Err(DecimalFault::BadForm) => Err(Why::BadNumber),
        Err(DecimalFault::TooLong) => Err(Why::BadNumber),
    }
}
