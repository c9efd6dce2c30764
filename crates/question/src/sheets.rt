//! The names of a report's sheets.

ghost use Rattle.std.specs.Prelude.{◌≡◌, [], if◌then◌else◌, IfOk, Some, None, map};
ghost use Rattle.std.specs.List.{list_all, slice_split};
ghost use Rattle.std.specs.Char.{is_ascii_lowercase};
ghost use Rattle.question.specs.Forms.{is_comma, is_sheet, are_sheets, sheets_of};

use decimal_text::{Text, Words};
use std::alloc::{AllocError, Global};
use std::collections::BTreeSet;

fn parts(alloc: Global, text: &str) -> Result<Vec<&str>, AllocError>
    ensures { IfOk result (λ v. map (λ part. part.now) v.items ≡ slice_split is_comma text.now) }
{
    text.split(',').collect(alloc)
}

fn are_letters(text: &[u8]) -> bool
    ensures { result ≡ list_all is_ascii_lowercase text.now }
{
    text.iter().all(|byte| byte.is_ascii_lowercase())
}

/// Returns true if `word` is the name of a sheet: from 1 to 16 letters from a to z.
fn is_sheet(word: &str) -> bool
    ensures { result ≡ is_sheet word.now }
{
    !word.is_empty() && word.len() <= 16 && are_letters(word.as_bytes())
}

/// Returns true if each of `words` is the name of a sheet (1 to 16 letters from a to z), and no two
/// are the same.
///
/// # Errors
/// [`AllocError`] if memory runs out.
fn are_sheets(alloc: Global, words: &[&str]) -> Result<bool, AllocError>
    ensures { IfOk result (λ b. b ≡ are_sheets [] (map (λ word. word.now) words.now)) }
{
    let mut earlier = BTreeSet::new(alloc);
    for word in words {
        if !is_sheet(word) || !earlier.insert(*word)? {
            return Ok(false);
        }
    }
    Ok(true)
}

fn texts(alloc: Global, words: &[&str]) -> Result<Vec<Text>, AllocError>
    ensures { IfOk result (λ v. v.items ≡ map (λ word. word.now) words.now) }
{
    let mut texts = Vec::new(alloc);
    for word in words {
        texts.push(Text::from_str(alloc, word)?)?;
    }
    Ok(texts)
}

/// Returns the parts of `text` between its commas, or `None` unless each part is the name of a
/// sheet (1 to 16 letters from a to z) and no two are the same.
///
/// # Errors
/// [`AllocError`] if memory runs out.
#[tactic(auto, unfolding(crate::specs::Forms::sheets_of))]
pub fn sheets(alloc: Global, text: &str) -> Result<Option<Words>, AllocError>
    ensures { IfOk result (λ words. words ≡ sheets_of text.now) }
{
    let words = parts(alloc, text)?;
    words_if_sheets(alloc, &words)
}

fn words_if_sheets(alloc: Global, words: &[&str]) -> Result<Option<Words>, AllocError>
    ensures { IfOk result (λ names. names ≡ (let texts = map (λ word. word.now) words.now in
        if are_sheets [] texts then Some texts else None)) }
{
    if !are_sheets(alloc, words)? {
        return Ok(None);
    }
    Ok(Some(Words::from_vec(texts(alloc, words)?)))
}
