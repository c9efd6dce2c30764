//! Escaped texts.

ghost use Rattle.std.specs.Prelude.{◌≡◌, ◌≢◌, ◌∷◌, ◌++◌, if◌then◌else◌, All, IfOk, OnOk, string_bytes, encode_utf8};
ghost use Rattle.ical_sheet.specs.Escaping.{escaped, is_special};

use decimal_text::{Bytes, Text};
use std::alloc::{AllocError, Global};

/// Returns `text` with a backslash inserted before each backslash, semicolon and comma (RFC 5545,
/// section 3.3.11). `text` has no CR and no LF.
///
/// The program itself appends to an existing text and doesn't call this function.
///
/// # Errors
/// [`AllocError`] if memory runs out.
pub fn escape(alloc: Global, text: &Text) -> Result<Bytes, AllocError>
    requires { All (λ octet. (octet ≢ 13) × (octet ≢ 10)) text.now }
    ensures { IfOk result (λ bytes. bytes ≡ escaped text.now) }
{
    let mut escaped = String::new(alloc);
    push_escaped(&mut escaped, text.as_str())?;
    Ok(Bytes::from_vec(escaped.into_bytes()))
}

/// Appends `text`, escaped.
pub(crate) fn push_escaped(out: &mut String, text: &str) -> Result<(), AllocError>
    ensures { OnOk result (string_bytes out.new ≡ string_bytes out.old ++ escaped text.now) }
{
    for letter in text.chars() {
        push_letter(out, letter)?;
    }
    Ok(())
}

/// Appends `letter`, escaped if it is a backslash, a semicolon or a comma.
fn push_letter(out: &mut String, letter: char) -> Result<(), AllocError>
    ensures { OnOk result (string_bytes out.new
        ≡ string_bytes out.old ++ (if is_special letter then 92 ∷ encode_utf8 letter else encode_utf8 letter)) }
{
    if is_special(letter) {
        out.push('\\')?;
    }
    out.push(letter)
}

/// Returns true if `letter` is a backslash, a semicolon or a comma.
fn is_special(letter: char) -> bool
    ensures { result ≡ is_special letter }
{
    matches!(letter, '\\' | ';' | ',')
}
