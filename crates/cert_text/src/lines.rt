//! Splitting bytes into lines, and removing prefixes.

ghost use Rattle.std.specs.Prelude.{◌≡◌, ◌<◌, ◌∷◌, [], length, MatchOption, IfSome, position, option_copied};
ghost use Rattle.cert_text.specs.ByLine.{is_lf, lines_in, last_in};
ghost use Rattle.cert_text.specs.Workings.LineReading.{after};

/// Returns the index, counted from 0, of the first LF in `bytes`, or `None` if there is none.
fn lf_at(bytes: &[u8]) -> Option<usize>
    ensures { result ≡ position is_lf bytes.now }
{
    bytes.iter().position(|b| *b == b'\n')
}

/// Returns the first line of `bytes`, without its LF, and the bytes after this LF. Returns `None`
/// if `bytes` has no LF.
pub fn next_line(bytes: &[u8]) -> Option<(&[u8], &[u8])>
    ensures shorter { IfSome result (λ r. length r.1.now < length bytes.now) }
    ensures exact { MatchOption result (lines_in bytes.now ≡ [])
        (λ r. (lines_in bytes.now ≡ r.0.now ∷ lines_in r.1.now) × (last_in bytes.now ≡ last_in r.1.now)) }
{
    match lf_at(bytes) {
        None => None,
        Some(end) => {
            let (line, rest) = bytes.split_at(end);
            let (_, rest) = rest.split_at(1);
            Some((line, rest))
        }
    }
}

/// Returns the rest of `line` after the prefix `word`, or `None` if `line` doesn't begin with
/// `word`.
#[tactic(auto, unfolding(crate::specs::Workings::LineReading::after))]
pub fn after<'a>(word: &[u8], line: &'a [u8]) -> Option<&'a [u8]>
    ensures { option_copied result ≡ after word.now line.now }
{
    line.strip_prefix(word)
}
