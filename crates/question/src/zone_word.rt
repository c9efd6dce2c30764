//! Parsing the zone in which times are shown.

ghost use Rattle.std.specs.Prelude.{◌≡◌, ◌<◌, ◌≤◌, IfOk, pos};
ghost use Rattle.std.specs.Option.{ForSome, option_copied, option_map};
ghost use Rattle.question.specs.Forms.{after, two_digits_of, clock_of, offset_of, file_zone, zone_of};

use crate::origin::Origin;
use crate::question::ZoneWord;
use crate::values::{number, some_text};
use std::alloc::{AllocError, Global};

/// Returns the text after `first`, an ASCII character, or `None` if `text` doesn't begin with
/// `first`.
fn after(text: &str, first: char) -> Option<&str>
    requires { first < 128 }
    ensures { option_copied result ≡ after first text.now }
{
    text.strip_prefix(first)
}

fn two_digits(text: &str, most: u64) -> Option<u64>
    ensures value { result ≡ two_digits_of most text.now }
    ensures range { ForSome result (λ n. n ≤ most) }
{
    if text.len() != 2 {
        return None;
    }
    number(text, 2, 0, most)
}

/// Returns the number of minutes in a time such as `05:30`: two digits for hours, from 00 to 15,
/// and two for minutes, from 00 to 59. Returns `None` if `text` isn't such a time.
#[tactic(auto, unfolding(crate::specs::Forms::clock_of))]
fn clock(text: &str) -> Option<i32>
    ensures value { result ≡ option_map pos (clock_of text.now) }
{
    let (hours, minutes) = text.split_once(':')?;
    let hours = two_digits(hours, 15)?;
    let minutes = two_digits(minutes, 59)?;
    Some((60 * hours + minutes) as i32)
}

/// Returns the minutes of an offset such as `+05:30` or `-05:30`, by which clocks are ahead of
/// universal time (negative if they are behind it), from -959 to 959, or `None` if `text` isn't
/// such an offset.
#[tactic(auto, unfolding(crate::specs::Forms::offset_of))]
fn offset(text: &str) -> Option<i32>
    ensures { result ≡ offset_of text.now }
{
    if let Some(ahead) = after(text, '+') {
        return clock(ahead);
    }
    let behind = clock(after(text, '-')?)?;
    Some(-behind)
}

fn file_zone(alloc: Global, origin: Origin, name: &str) -> Result<Option<ZoneWord>, AllocError>
    ensures { IfOk result (λ zone. zone ≡ file_zone origin name.now) }
{
    if origin == Origin::Query {
        return Ok(None);
    }
    Ok(some_text(alloc, name)?.map(|name| ZoneWord::Named(name)))
}

/// Parses `text` as a zone: `UTC`, an offset from universal time such as `+05:30`, or, on a command
/// line, `@` and the name of a zone file, which isn't empty. Returns `None` if it is none of these.
///
/// # Errors
/// [`AllocError`] if memory runs out.
#[tactic(auto, unfolding(crate::specs::Forms::zone_of))]
pub fn zone(alloc: Global, origin: Origin, text: &str) -> Result<Option<ZoneWord>, AllocError>
    ensures { IfOk result (λ zone. zone ≡ zone_of origin text.now) }
{
    if text == "UTC" {
        return Ok(Some(ZoneWord::Utc));
    }
    if let Some(name) = after(text, '@') {
        return file_zone(alloc, origin, name);
    }
    Ok(offset(text).map(|minutes| ZoneWord::Fixed(minutes)))
}
