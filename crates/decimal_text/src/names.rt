//! The bytes that a name may have.

ghost use Rattle.std.specs.Prelude.{◌≡◌};
ghost use Rattle.std.specs.List.{list_all};
ghost use Rattle.decimal_text.specs.Names.{is_name_byte};

/// Returns true if the byte isn't a control character of ASCII (0 to 31, or 127).
fn is_name_byte(b: u8) -> bool
    ensures { result ≡ is_name_byte b }
{
    b >= 32 && b != 127
}

/// Returns true if no byte of `name`, a name in UTF-8, is a control character of ASCII (0 to 31, or
/// 127). Its length and its encoding aren't checked.
pub fn are_name_bytes(name: &[u8]) -> bool
    ensures { result ≡ list_all is_name_byte name.now }
{
    name.iter().all(|b| is_name_byte(*b))
}
