//! The fields of a row, and the values that they write.

ghost use Rattle.std.specs.Prelude.{◌≡◌, pos, negsuc, IfOk, IsUtf8};
ghost use Rattle.harmonics_book.specs.Books.{IsWithin};
ghost use Rattle.station_table.specs.Fields.{text_of, name_of, within, minutes_of_text, millionths_in, add_of, times_of, plus_of};
ghost use Rattle.station_table.specs.Offsets.{IsAdd, IsTableName};
ghost use Rattle.station_table.specs.Workings.Rows.{Reads};

use crate::clock::clock;
use crate::fault::OffsetWhy;
use crate::offset::Offset;
use decimal_text::{DecimalFault, are_name_bytes, read, split_sign};
use std::str::from_utf8;

/// Returns `field` as text, or [`OffsetWhy::NotUtf8`] if its bytes aren't UTF-8.
#[tactic(auto, unfolding(crate::specs::Fields::text_of))]
fn text(field: &[u8]) -> Result<&str, OffsetWhy>
    ensures exact { Reads (λ t. t.now) (text_of field.now) result }
    ensures same { IfOk result (λ t. t.now ≡ field.now) }
    ensures utf8 { IfOk result (λ t. IsUtf8 field.now) }
{
    match from_utf8(field) {
        Ok(text) => Ok(text),
        Err(_) => Err(OffsetWhy::NotUtf8),
    }
}

/// Parses `field` as a name: from 1 to 400 bytes of UTF-8 without control bytes of ASCII (below 32,
/// or 127).
///
/// # Errors
/// - [`OffsetWhy::NotUtf8`]: when `field` isn't UTF-8.
/// - [`OffsetWhy::BadName`]: when `field` is UTF-8, but empty, longer than 400 bytes or with a
///   control byte of ASCII.
#[tactic(auto, unfolding(crate::specs::Fields::name_of, crate::specs::Fields::name_in))]
pub fn name(field: &[u8]) -> Result<&str, OffsetWhy>
    ensures exact { Reads (λ t. t.now) (name_of field.now) result }
    ensures valid { IfOk result (λ t. IsTableName t.now) }
{
    let name = text(field)?;
    if field.is_empty() || field.len() > 400 || !are_name_bytes(field) {
        return Err(OffsetWhy::BadName);
    }
    Ok(name)
}

/// Returns `value` if it is from `least` to `most`, both included, and otherwise
/// [`OffsetWhy::OutOfRange`].
#[tactic(auto, unfolding(crate::specs::Fields::within))]
fn within(least: i64, most: i64, value: i128) -> Result<i64, OffsetWhy>
    ensures exact { result ≡ within least most value }
    ensures valid { IfOk result (IsWithin least most) }
{
    if value < i128::from(least) || i128::from(most) < value {
        return Err(OffsetWhy::OutOfRange);
    }
    Ok(value as i64)
}

/// Returns the minutes, from -1,440 to 1,440, of a text such as `-0:10`; the sign is optional.
/// Otherwise [`OffsetWhy::BadNumber`] if the text has another form, or [`OffsetWhy::OutOfRange`].
#[tactic(auto, unfolding(crate::specs::Fields::minutes_of_text))]
fn minutes(text: &[u8]) -> Result<i32, OffsetWhy>
    ensures exact { result ≡ minutes_of_text text.now }
    ensures valid { IfOk result IsAdd }
{
    let (negative, body) = split_sign(text);
    match clock(body) {
        None => Err(OffsetWhy::BadNumber),
        Some(size) => {
            let size = i128::from(size);
            let minutes = within(-1440, 1440, if negative { -size } else { size })?;
            Ok(minutes as i32)
        }
    }
}

/// Returns the decimal `text` in millionths, from `least` to `most`, both included. Otherwise
/// [`OffsetWhy::BadNumber`] if the text isn't a decimal with at most 18 digits before its point,
/// [`OffsetWhy::TooFine`] if it has a digit other than 0 after the sixth decimal place, or
/// [`OffsetWhy::OutOfRange`].
#[tactic(auto, unfolding(crate::specs::Fields::millionths_in))]
fn millionths(least: i64, most: i64, text: &[u8]) -> Result<i64, OffsetWhy>
    ensures exact { result ≡ millionths_in least most text.now }
    ensures valid { IfOk result (IsWithin least most) }
{
    match read(text, 6) {
        Ok(value) => within(least, most, value),
        Err(DecimalFault::TooFine) => Err(OffsetWhy::TooFine),
        Err(DecimalFault::BadForm) => Err(OffsetWhy::BadNumber),
        Err(DecimalFault::TooLong) => Err(OffsetWhy::BadNumber),
    }
}

/// Parses `field`, a text such as `-0:10`, as the minutes added to a time, from -1,440 to 1,440; an
/// empty field is 0.
///
/// # Errors
/// The first of these that is true:
/// - [`OffsetWhy::NotUtf8`]: when `field` isn't UTF-8.
/// - [`OffsetWhy::BadNumber`]: when it isn't empty nor of the form `H:MM` or `HH:MM` with an
///   optional sign, hours from 0 to 99 and minutes from 00 to 59.
/// - [`OffsetWhy::OutOfRange`]: when it writes more than 24 hours either way.
#[tactic(auto, unfolding(crate::specs::Fields::add_of, crate::specs::Fields::value_of))]
pub fn add(field: &[u8]) -> Result<i32, OffsetWhy>
    ensures exact { result ≡ add_of field.now }
    ensures valid { IfOk result IsAdd }
{
    text(field)?;
    if field.is_empty() {
        return Ok(Offset::USUAL.add);
    }
    minutes(field)
}

/// Parses `field`, a decimal, as the factor of a level, in millionths, from 1 to 100,000,000 (from
/// 0.000001 to 100); an empty field is 1,000,000.
///
/// # Errors
/// The first of these that is true:
/// - [`OffsetWhy::NotUtf8`]: when `field` isn't UTF-8.
/// - [`OffsetWhy::BadNumber`]: when it isn't empty nor a decimal with at most 18 digits before its
///   point.
/// - [`OffsetWhy::TooFine`]: when it has a digit other than 0 after its sixth decimal place.
/// - [`OffsetWhy::OutOfRange`]: when it isn't from 0.000001 to 100.
#[tactic(auto, unfolding(crate::specs::Fields::times_of, crate::specs::Fields::value_of))]
pub fn times(field: &[u8]) -> Result<i64, OffsetWhy>
    ensures exact { result ≡ times_of field.now }
    ensures valid { IfOk result (IsWithin (pos 1) (pos 100000000)) }
{
    text(field)?;
    if field.is_empty() {
        return Ok(Offset::USUAL.times);
    }
    millionths(1, 100_000_000, field)
}

/// Parses `field`, a decimal, as the height added to a level, in millionths of the station's unit,
/// from -10,000,000,000 to 10,000,000,000; an empty field is 0.
///
/// # Errors
/// The first of these that is true:
/// - [`OffsetWhy::NotUtf8`]: when `field` isn't UTF-8.
/// - [`OffsetWhy::BadNumber`]: when it isn't empty nor a decimal with at most 18 digits before its
///   point.
/// - [`OffsetWhy::TooFine`]: when it has a digit other than 0 after its sixth decimal place.
/// - [`OffsetWhy::OutOfRange`]: when it isn't from -10000 to 10000.
#[tactic(auto, unfolding(crate::specs::Fields::plus_of, crate::specs::Fields::value_of))]
pub fn plus(field: &[u8]) -> Result<i64, OffsetWhy>
    ensures exact { result ≡ plus_of field.now }
    ensures valid { IfOk result (IsWithin (negsuc 9999999999) (pos 10000000000)) }
{
    text(field)?;
    if field.is_empty() {
        return Ok(Offset::USUAL.plus);
    }
    millionths(-10_000_000_000, 10_000_000_000, field)
}
