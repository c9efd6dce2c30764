//! Unfolded texts.

ghost use Rattle.std.specs.Prelude.{◌≡◌, ◌+◌, ◌≤◌, ◌&&◌, nat_lt, length, slice_index, IfOk};
ghost use Rattle.ical_sheet.specs.Folding.{is_fold, unfolded};

use decimal_text::Bytes;
use std::alloc::{AllocError, Global};

/// Returns `text` unfolded (RFC 5545, section 3.1): each CR LF directly before a space or a tab is
/// removed, together with this space or tab.
///
/// The program writes calendars but reads none, so it doesn't call this function.
///
/// # Errors
/// [`AllocError`] if memory runs out.
pub fn unfold(alloc: Global, text: &[u8]) -> Result<Bytes, AllocError>
    ensures { IfOk result (λ line. line ≡ unfolded text.now) }
{
    let mut line = Vec::with_capacity(alloc, text.len())?;
    let mut at = 0;
    while at < text.len() {
        if is_fold_at(text, at) {
            at += 3;
        } else {
            line.push(text[at])?;
            at += 1;
        }
    }
    Ok(Bytes::from_vec(line))
}

/// Returns true if a CR LF and then a space or a tab are at index `at` of `text`.
fn is_fold_at(text: &[u8], at: usize) -> bool
    requires { at ≤ length text.now }
    ensures { result ≡ (nat_lt (at + 2) (length text.now)
        && is_fold (slice_index text.now at) (slice_index text.now (at + 1)) (slice_index text.now (at + 2))) }
{
    text.len() - at > 2
        && text[at] == b'\r'
        && text[at + 1] == b'\n'
        && matches!(text[at + 2], b' ' | b'\t')
}
