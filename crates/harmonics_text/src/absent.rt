//! Runs of lines for absent constituents, most of the lines in a file that XTide's tools write.
//!
//! A station has the line `x 0 0` in place of a constituent of the book that it doesn't have.

ghost use Rattle.std.specs.Prelude.{◌≡◌, ◌≤◌, ◌∷◌, ◌++◌, [], codes, nat_eq};
ghost use Rattle.std.specs.List.{starts_with};
ghost use Rattle.harmonics_text.specs.Workings.Absent.{absent_lines};

/// Returns true if `bytes` begins with the line `x 0 0` and its LF.
fn begins_absent(bytes: &[u8]) -> bool
    ensures { result ≡ starts_with nat_eq bytes.now (codes "x 0 0" ++ 10 ∷ []) }
{
    bytes.starts_with(b"x 0 0\n".as_slice())
}

/// Splits up to `most` lines `x 0 0`, each with its LF, from the start of `bytes`. XTide's tools
/// write this line for a constituent that a station doesn't have. Returns the number of lines, from
/// 0 to `most`, and the bytes after them.
pub fn absent_lines(bytes: &[u8], most: usize) -> (usize, &[u8])
    ensures count_bound { result.0 ≤ most }
    ensures exact { bytes.now ≡ absent_lines result.0 ++ result.1.now }
{
    let mut count = 0;
    let mut rest = bytes;
    while count < most && begins_absent(rest) {
        rest = rest.split_at(6).1;
        count += 1;
    }
    (count, rest)
}
