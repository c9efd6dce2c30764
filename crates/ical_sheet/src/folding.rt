//! Folded content lines.

ghost use Rattle.std.specs.Prelude.{◌≡◌, ◌≤◌, ◌++◌, length, take, drop, codes, IfOk, OnOk};
ghost use Rattle.std.specs.List.{flat_map};
ghost use Rattle.std.specs.Str.{IsUtf8};
ghost use Rattle.ical_sheet.specs.Folding.{
  AreShort,
  IsContentLine,
  ends_at,
  folded,
  further_pieces,
  physical_lines,
  prefix_length,
  unfolded,
};

use decimal_text::Bytes;
use std::alloc::{AllocError, Global};

/// The greatest number of octets of a physical line without its CR LF (RFC 5545, 3.1).
const MOST_OCTETS: usize = 75;

/// Returns the content line `line` folded (RFC 5545, section 3.1): split into physical lines that end
/// with CR LF and have at most 75 bytes before it; each but the first begins with a space. No UTF-8
/// character is split. `line` is UTF-8 text without CR and LF that doesn't begin with a space or a tab.
///
/// The program itself appends to an existing text and doesn't call this function.
///
/// # Errors
/// [`AllocError`] if memory runs out.
pub fn fold(alloc: Global, line: &[u8]) -> Result<Bytes, AllocError>
    requires { IsContentLine line.now }
    ensures text { IfOk result (λ text. text ≡ folded line.now) }
    ensures length_bound { IfOk result (λ text. AreShort (physical_lines text)) }
    ensures unfolds { IfOk result (λ text. unfolded text ≡ line.now ++ codes "\r\n") }
{
    let mut text = Vec::new(alloc);
    push_folded(&mut text, line)?;
    Ok(Bytes::from_vec(text))
}

/// Appends `line`, folded.
#[tactic(auto, unfolding(crate::specs::Folding::folded))]
pub(crate) fn push_folded(text: &mut Vec<u8>, line: &[u8]) -> Result<(), AllocError>
    requires { IsUtf8 line.now }
    ensures { OnOk result (text.new.items ≡ text.old.items ++ folded line.now) }
{
    let (first, rest) = cut(line, MOST_OCTETS);
    text.extend_from_slice(first)?;
    push_further(text, rest)?;
    text.extend_from_slice(b"\r\n")
}

/// Appends `line`, which has at most 75 octets and needs no fold.
pub(crate) fn push_short(text: &mut Vec<u8>, line: &[u8]) -> Result<(), AllocError>
    requires { length line.now ≤ 75 }
    ensures { OnOk result (text.new.items ≡ text.old.items ++ folded line.now) }
{
    text.extend_from_slice(line)?;
    text.extend_from_slice(b"\r\n")
}

/// Appends the pieces after the first, each after a CR LF and a space.
fn push_further(text: &mut Vec<u8>, further: &[u8]) -> Result<(), AllocError>
    requires { IsUtf8 further.now }
    ensures { OnOk result (text.new.items ≡ text.old.items ++ flat_map (λ piece. codes "\r\n " ++ piece) (further_pieces further.now)) }
{
    let mut rest = further;
    while !rest.is_empty() {
        let (piece, later) = cut(rest, MOST_OCTETS - 1);
        text.extend_from_slice(b"\r\n ")?;
        text.extend_from_slice(piece)?;
        rest = later;
    }
    Ok(())
}

/// Returns the longest prefix of `text` with at most `most` octets that ends at the end of a character,
/// and the text after it.
fn cut(text: &[u8], most: usize) -> (&[u8], &[u8])
    ensures piece { result.0.now ≡ take (prefix_length most text.now) text.now }
    ensures rest { result.1.now ≡ drop (prefix_length most text.now) text.now }
{
    text.split_at(prefix_length(text, most))
}

/// Returns the length of the longest prefix of `text` with at most `most` octets that splits no character.
fn prefix_length(text: &[u8], most: usize) -> usize
    ensures octets { result ≡ prefix_length most text.now }
    ensures within { result ≤ length text.now }
{
    let mut end = most.min(text.len());
    while end > 0 && !ends_at(text, end) {
        end -= 1;
    }
    end
}

/// Returns true if no character of `text` is split at `end`.
fn ends_at(text: &[u8], end: usize) -> bool
    requires { end ≤ length text.now }
    ensures { result ≡ ends_at text.now end }
{
    end == text.len() || !matches!(text[end], 128..=191)
}
