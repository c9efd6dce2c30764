//! Writing one digit.

ghost use Rattle.std.specs.Prelude.{◌≡◌, ◌+◌, ◌<◌, ◌≤◌, [], ◌∷◌, ◌++◌};
ghost use Rattle.arrayvec.specs.ArrayString.{array_string_len};

use arrayvec::ArrayString;

/// Appends the digit `digit`, from 0 to 9, to `out`, which has space for one more byte. It doesn't
/// allocate.
pub fn push_digit<const N: usize>(digit: u32, out: &mut ArrayString<N>)
    requires digit { digit < 10 }
    requires room { array_string_len out.old + 1 ≤ N }
    ensures bytes { out.new.bytes ≡ out.old.bytes ++ (48 + digit) ∷ [] }
    ensures len { array_string_len out.new ≡ array_string_len out.old + 1 }
{
    out.push((b'0' + digit as u8) as char);
}
