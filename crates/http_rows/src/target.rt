//! The path and the query of a request's target.

ghost use Rattle.std.specs.Prelude.{◌≡◌, ◌==◌, position};
ghost use Rattle.http_rows.specs.Rows.{path_of, query_of};

/// Returns the part of `target` before its first `?`.
pub(crate) fn path_of(target: &[u8]) -> &[u8]
    ensures { result.now ≡ path_of target.now }
{
    match question_mark(target) {
        Some(at) if at < target.len() => &target[..at],
        _ => target,
    }
}

/// Returns the part of `target` after its first `?`, or no bytes if it has none.
pub(crate) fn query_of(target: &[u8]) -> &[u8]
    ensures { result.now ≡ query_of target.now }
{
    match question_mark(target) {
        Some(at) if at < target.len() => &target[at + 1..],
        _ => &[],
    }
}

fn question_mark(target: &[u8]) -> Option<usize>
    ensures { result ≡ position (λ b. b == 63) target.now }
{
    target.iter().position(|b| *b == b'?')
}
