//! The lines of a file, and the tokens of a line: its parts between spaces and tabs.

ghost use Rattle.std.specs.Prelude.{◌≡◌, ◌<◌, ◌∷◌, ◌++◌, [], codes, length, nat_eq, false, MatchOption, IfSome, position, option_map};
ghost use Rattle.std.specs.List.{list_all, starts_with};
ghost use Rattle.std.specs.Option.{option_copied};
ghost use Rattle.harmonics_text.specs.Workings.Readers.{has_lf};
ghost use Rattle.harmonics_text.specs.Lines.{
  is_lf,
  is_blank,
  is_visible,
  is_comment,
  is_too_long,
  without_cr,
  tokens,
  only,
  only_two,
  trimmed,
  without_blank_end,
};

use memchr::memchr;

/// Returns the index of the first LF in `bytes`, or `None` if there isn't one.
fn lf_at(bytes: &[u8]) -> Option<usize>
    ensures { result ≡ position is_lf bytes.now }
{
    memchr(b'\n', bytes)
}

/// Splits `bytes` at its first LF. Returns the bytes before the LF, which are the line, and the
/// bytes after it, or `None` if `bytes` has no LF.
#[inline(always)]
pub fn next_line(bytes: &[u8]) -> Option<(&[u8], &[u8])>
    ensures shorter { IfSome result (λ r. length r.1.now < length bytes.now) }
    ensures exact { MatchOption result (has_lf bytes.now ≡ false) (λ r. (bytes.now ≡ r.0.now ++ 10 ∷ r.1.now) × (has_lf r.0.now ≡ false)) }
{
    let end = lf_at(bytes)?;
    let (line, rest) = bytes.split_at(end);
    Some((line, rest.split_at(1).1))
}

/// Returns true if `line` is a comment, which begins with `#`.
pub fn is_comment(line: &[u8]) -> bool
    ensures { result ≡ is_comment line.now }
{
    line.starts_with(b"#".as_slice())
}

/// Returns true if `line`, without its LF, has more than 4,096 bytes. Only a comment may have more.
pub fn is_too_long(line: &[u8]) -> bool
    ensures { result ≡ is_too_long line.now }
{
    line.len() > 4096
}

/// Returns `line` without the CR at its end. If it ends with several, one is removed; if it ends
/// with none, the result is `line`.
pub fn without_cr(line: &[u8]) -> &[u8]
    ensures { result.now ≡ without_cr line.now }
{
    if line.ends_with(b"\r".as_slice()) {
        line.split_at(line.len() - 1).0
    } else {
        line
    }
}

/// Returns true if `b` is a space or a tab.
pub fn is_blank(b: u8) -> bool
    ensures { result ≡ is_blank b }
{
    b == b' ' || b == b'\t'
}

/// Returns true if each byte of `text` is a space or a tab, also if `text` is empty.
pub fn is_all_blank(text: &[u8]) -> bool
    ensures { result ≡ list_all is_blank text.now }
{
    text.iter().all(|b| is_blank(*b))
}

/// Returns the index of the first byte of `text` that is neither a space nor a tab, or `None` if
/// there is no such byte.
pub fn visible_at(text: &[u8]) -> Option<usize>
    ensures { result ≡ position is_visible text.now }
{
    text.iter().position(|b| !is_blank(*b))
}

/// Returns the index of the first space or tab in `text`, or `None` if there is none.
fn blank_at(text: &[u8]) -> Option<usize>
    ensures { result ≡ position is_blank text.now }
{
    text.iter().position(|b| is_blank(*b))
}

/// Returns true if `text` begins with four spaces.
fn is_padded(text: &[u8]) -> bool
    ensures { result ≡ starts_with nat_eq text.now (codes "    ") }
{
    text.starts_with(b"    ".as_slice())
}

/// Returns `text` without most of the spaces at its start: they are skipped four at a time, and up
/// to three remain. The tokens stay the same. It is called for the bytes after a constituent's
/// name, which XTide's tools pad with spaces to a fixed width: twelve or more follow most names.
pub fn without_padding(text: &[u8]) -> &[u8]
    ensures { tokens result.now ≡ tokens text.now }
{
    let mut rest = text;
    while is_padded(rest) {
        rest = rest.split_at(4).1;
    }
    rest
}

/// Returns the first token of `text`, without the spaces and tabs before it, and the bytes after
/// the token. Returns `None` if `text` has only spaces and tabs, or no byte.
pub fn next_token(text: &[u8]) -> Option<(&[u8], &[u8])>
    ensures shorter { IfSome result (λ r. length r.1.now < length text.now) }
    ensures exact { MatchOption result (tokens text.now ≡ []) (λ r. tokens text.now ≡ r.0.now ∷ tokens r.1.now) }
{
    let start = visible_at(text)?;
    let (_, visible) = text.split_at(start);
    let end = blank_at(visible).unwrap_or(visible.len());
    Some(visible.split_at(end))
}

/// Returns the token of `text` if it has exactly one, and otherwise `None`. Tokens are separated by
/// spaces and tabs.
pub fn only_token(text: &[u8]) -> Option<&[u8]>
    ensures { option_copied result ≡ only (tokens text.now) }
{
    let (token, rest) = next_token(text)?;
    match next_token(rest) {
        None => Some(token),
        Some(_) => None,
    }
}

/// Returns the two tokens of `text`, in order, if it has exactly two, and otherwise `None`. Tokens
/// are separated by spaces and tabs.
pub fn only_two_tokens(text: &[u8]) -> Option<(&[u8], &[u8])>
    ensures { option_map (λ r. (r.0.now, r.1.now)) result ≡ only_two (tokens text.now) }
{
    let (first, rest) = next_token(text)?;
    let second = only_token(rest)?;
    Some((first, second))
}

/// Returns `text` without the spaces and tabs at its start and at its end.
pub fn trimmed(text: &[u8]) -> &[u8]
    ensures { result.now ≡ trimmed text.now }
{
    let start = visible_at(text).unwrap_or(text.len());
    let (_, visible) = text.split_at(start);
    without_blank_end(visible)
}

/// Returns `text` without the spaces and tabs at its end.
fn without_blank_end(text: &[u8]) -> &[u8]
    ensures { result.now ≡ without_blank_end text.now }
{
    let mut end = text.len();
    while end > 0 && is_blank(text[end - 1]) {
        end -= 1;
    }
    text.split_at(end).0
}
