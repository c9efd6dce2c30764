//! Counts that stop at the greatest `u64`.

ghost use Rattle.std.specs.Prelude.{◌≡◌};
ghost use Rattle.tide_edge.specs.Faults.{counted};

/// Returns `count + 1`, or `count` if it is already the greatest `u64`.
pub(crate) fn one_more(count: u64) -> u64
    ensures { result ≡ counted count }
{
    count.saturating_add(1)
}
