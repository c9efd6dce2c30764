//! The line of a station with its meridian and the name of its time zone.

ghost use Rattle.std.specs.Prelude.{◌≡◌, ◌≤◌, IfSome, position, encode_utf8_all};
ghost use Rattle.std.specs.List.{list_all};
ghost use Rattle.harmonics_text.specs.Rules.{
  is_colon,
  two_digits_of,
  minutes_of,
  clock_of,
  meridian_of,
  is_zone_byte,
  zone_of,
  local_time_of,
};
ghost use Rattle.harmonics_text.specs.Workings.BookParsing.{Follows};

use crate::fault::{LineFault, Why};
use crate::lines::next_token;
use crate::names::utf8_of;
use decimal_text::{Text, digits, split_sign};
use std::alloc::Global;

/// A station's meridian, which is its local time less universal time in minutes, and the name of
/// its time zone.
#[derive(Drop)]
pub struct LocalTime {
    /// The station's local time less universal time, in minutes, from -959 to 959: positive east of
    /// Greenwich.
    pub meridian: i32,
    /// The name of the zone in UTF-8, without the colon before it, such as `America/New_York`. It
    /// is empty if the line has no zone.
    pub zone: Text,
}

/// Returns the index of the first colon in `text`, or `None` if there is none.
fn colon_at(text: &[u8]) -> Option<usize>
    ensures { result ≡ position is_colon text.now }
{
    text.iter().position(|b| *b == b':')
}

/// Returns the number that `text`, exactly two digits, writes, or `None` for any other text.
#[tactic(auto, unfolding(crate::specs::Rules::two_digits_of))]
fn two_digits(text: &[u8]) -> Option<u64>
    ensures { result ≡ two_digits_of text.now }
{
    if text.len() == 2 {
        digits(text, 2)
    } else {
        None
    }
}

/// Returns 60 times `hour` plus `minute`, or `None` if one of them is `None`, `hour` exceeds 15 or
/// `minute` exceeds 59.
#[tactic(auto, unfolding(crate::specs::Rules::minutes_of))]
fn minutes(hour: Option<u64>, minute: Option<u64>) -> Option<u32>
    ensures exact { result ≡ minutes_of hour minute }
    ensures small { IfSome result (λ n. n ≤ 959) }
{
    let hour = hour?;
    let minute = minute?;
    if hour > 15 || minute > 59 {
        return None;
    }
    Some((60 * hour + minute) as u32)
}

/// Returns the minutes from 0:00 to the clock time `H:MM` or `HH:MM`, from 0 to 959, or `None` if
/// `clock` has another form, an hour above 15 or a minute above 59.
#[tactic(auto, unfolding(crate::specs::Rules::clock_of))]
fn clock_minutes(clock: &[u8]) -> Option<u32>
    ensures exact { result ≡ clock_of clock.now }
    ensures small { IfSome result (λ n. n ≤ 959) }
{
    let at = colon_at(clock)?;
    let (hour, rest) = clock.split_at(at);
    let (_, minute) = rest.split_at(1);
    minutes(digits(hour, 2), two_digits(minute))
}

/// Returns the meridian in `token`, such as `-5:00`, in minutes, from -959 to 959. The sign `-` or
/// `+` may be missing.
///
/// # Errors
/// [`Why::BadMeridian`]: if `token` isn't a sign and a clock time up to 15:59.
#[tactic(auto, unfolding(crate::specs::Rules::meridian_of))]
fn meridian_minutes(token: &[u8]) -> Result<i32, Why>
    ensures { result ≡ meridian_of token.now }
{
    let (negative, clock) = split_sign(token);
    match clock_minutes(clock) {
        None => Err(Why::BadMeridian),
        Some(minutes) => {
            let minutes = minutes as i32;
            Ok(if negative { -minutes } else { minutes })
        }
    }
}

/// Returns true if the byte may be in a zone's name: if it is neither below 33 nor 127.
fn is_zone_byte(b: u8) -> bool
    ensures { result ≡ is_zone_byte b }
{
    matches!(b, 33..=126 | 128..=255)
}

/// Returns true if each byte of `token` may be in a zone's name.
fn is_zone(token: &[u8]) -> bool
    ensures { result ≡ list_all is_zone_byte token.now }
{
    token.iter().all(|b| is_zone_byte(*b))
}

/// Returns the zone's name in `token`, in ISO 8859-1, as UTF-8. One colon before it is left out, so
/// the name may be empty.
///
/// # Errors
/// [`Why::BadMeridian`]: if `token` has more than 100 bytes, a byte below 33 or the byte 127.
/// [`LineFault::NoMemory`]: if memory runs out.
#[tactic(auto, unfolding(crate::specs::Rules::zone_of))]
fn zone_name(alloc: Global, token: &[u8]) -> Result<Text, LineFault>
    ensures { Follows (λ t. t) result (zone_of token.now) }
{
    if token.len() > 100 || !is_zone(token) {
        return Err(LineFault::Bad(Why::BadMeridian));
    }
    if token.starts_with(b":".as_slice()) {
        Ok(utf8_of(alloc, token.split_at(1).1)?)
    } else {
        Ok(utf8_of(alloc, token)?)
    }
}

/// Returns the meridian and the zone in the line `text`, such as `-5:00 :America/New_York`. The
/// zone may be missing.
///
/// # Errors
/// [`Why::BadMeridian`]: if the line doesn't have one or two tokens, the first isn't a meridian
/// from -15:59 to 15:59, or the second isn't a zone's name of at most 100 bytes.
/// [`LineFault::NoMemory`]: if memory runs out.
#[tactic(auto, unfolding(crate::specs::Rules::local_time_of, crate::specs::Rules::local_time_from))]
pub fn local_time_of_line(alloc: Global, text: &[u8]) -> Result<LocalTime, LineFault>
    ensures { Follows (λ p. p) result (local_time_of text.now) }
{
    let Some((first, rest)) = next_token(text) else {
        return Err(LineFault::Bad(Why::BadMeridian));
    };
    let Some((second, rest)) = next_token(rest) else {
        let meridian = meridian_minutes(first)?;
        return Ok(LocalTime {
            meridian,
            zone: Text::empty(alloc),
        });
    };
    if next_token(rest).is_some() {
        return Err(LineFault::Bad(Why::BadMeridian));
    }
    let meridian = meridian_minutes(first)?;
    let zone = zone_name(alloc, second)?;
    Ok(LocalTime { meridian, zone })
}
