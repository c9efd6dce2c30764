//! The bytes of a slice from an index on.

ghost use Rattle.std.specs.Prelude.{◌≡◌, ◌+◌, ◌-◌, ◌<◌, ◌^◌, length, drop};

/// Returns the bytes of `bytes` from index `at` on: none if `at` is the length or more.
pub(crate) fn rest_from(bytes: &[u8], at: usize) -> &[u8]
    ensures unread_bytes { result.now ≡ drop at bytes.now }
    ensures count { length result.now ≡ length bytes.now - at }
    ensures fits { at + length result.now < 2 ^ 64 }
{
    if at < bytes.len() { &bytes[at..] } else { &[] }
}
