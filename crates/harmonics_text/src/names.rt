//! Names, which a file has in ISO 8859-1 and a book in UTF-8.

ghost use Rattle.std.specs.Prelude.{◌≡◌, IfOk, encode_utf8_all};
ghost use Rattle.std.specs.Option.{option_copied};
ghost use Rattle.harmonics_text.specs.Latin.{without_byte, without_bytes, utf8_byte_or_two};
ghost use Rattle.std.specs.List.{list_all};
ghost use Rattle.harmonics_text.specs.Rules.{is_latin_name_byte, name_of, is_name};
ghost use Rattle.harmonics_text.specs.Workings.BookParsing.{Follows};

use crate::fault::{LineFault, Why};
use decimal_text::Text;
use std::alloc::{AllocError, Global};

/// Returns the text `latin`, one byte per character in ISO 8859-1, as UTF-8. Any byte is allowed.
///
/// # Errors
/// [`AllocError`]: if memory runs out.
pub fn utf8_of(alloc: Global, latin: &[u8]) -> Result<Text, AllocError>
    ensures { IfOk result (λ t. t ≡ encode_utf8_all latin.now) }
{
    let mut text = String::with_capacity(alloc, latin.len())?;
    for b in latin {
        text.push(char::from(*b))?;
    }
    Text::from_str(alloc, text.as_str())
}

/// Returns true if a name may have this byte of ISO 8859-1: if it is neither below 32 nor 127.
fn is_latin_name_byte(b: u8) -> bool
    ensures { result ≡ is_latin_name_byte b }
{
    matches!(b, 32..=126 | 128..=255)
}

/// Returns true if no byte of `latin` is below 32 or equal to 127.
fn is_printable(latin: &[u8]) -> bool
    ensures { result ≡ list_all is_latin_name_byte latin.now }
{
    latin.iter().all(|b| is_latin_name_byte(*b))
}

/// Returns the name `latin`, in ISO 8859-1, as UTF-8.
///
/// # Errors
/// [`Why::BadName`]: if `latin` is empty, has more than `most` bytes, a byte below 32 or the byte
/// 127. [`LineFault::NoMemory`]: if memory runs out.
#[tactic(auto, unfolding(crate::specs::Rules::name_of))]
pub fn name_of(alloc: Global, latin: &[u8], most: usize) -> Result<Text, LineFault>
    ensures { Follows (λ t. t) result (name_of most latin.now) }
{
    if latin.is_empty() || latin.len() > most || !is_printable(latin) {
        return Err(LineFault::Bad(Why::BadName));
    }
    Ok(utf8_of(alloc, latin)?)
}

/// Returns `text` without its first byte if this is `b`, and `None` if `text` is empty or begins
/// with another byte.
pub fn without_byte(text: &[u8], b: u8) -> Option<&[u8]>
    ensures { option_copied result ≡ without_byte b text.now }
{
    let (first, rest) = text.split_first()?;
    if *first == b { Some(rest) } else { None }
}

/// Returns `text`, in UTF-8, without its first character if this is `latin`, a byte of ISO 8859-1,
/// and otherwise `None`.
#[tactic(auto, unfolding(crate::specs::Latin::without_bytes))]
fn without_char(text: &[u8], latin: u8) -> Option<&[u8]>
    ensures { option_copied result ≡ without_bytes (utf8_byte_or_two latin) text.now }
{
    if latin < 128 {
        return without_byte(text, latin);
    }
    without_byte(without_byte(text, 192 + latin / 64)?, 128 + latin % 64)
}

/// Returns true if the bytes `latin`, in ISO 8859-1, are the same text as `name`, which is in
/// UTF-8.
pub fn is_name(latin: &[u8], name: &Text) -> bool
    ensures { result ≡ is_name latin.now name.now }
{
    let mut rest = name.as_str().as_bytes();
    for b in latin {
        match without_char(rest, *b) {
            None => return false,
            Some(after) => rest = after,
        }
    }
    rest.is_empty()
}
