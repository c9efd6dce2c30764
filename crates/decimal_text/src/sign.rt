//! The sign of a number.

ghost use Rattle.std.specs.Prelude.{◌≡◌};
ghost use Rattle.std.specs.Str.Parse.{starts_with_minus, without_leading_sign};

/// Returns true if `text` begins with `-`, else false, and the bytes of `text` without its first
/// byte if this is `+` or `-`, else all of them.
pub fn split_sign(text: &[u8]) -> (bool, &[u8])
    ensures minus { result.0 ≡ starts_with_minus text.now }
    ensures rest { result.1.now ≡ without_leading_sign text.now }
{
    if text.is_empty() {
        return (false, text);
    }
    let (first, rest) = text.split_at(1);
    match first[0] {
        b'-' => (true, rest),
        b'+' => (false, rest),
        _ => (false, text),
    }
}
