//! Counting the failures of the system.

ghost use Rattle.std.specs.Prelude.{◌≡◌};
ghost use Rattle.tide_edge.specs.Faults.{counted};

use crate::count::one_more;
use crate::failed::Failed;

/// Adds 1 to `faults`, a count of failures that saturates at the greatest `u64`, and returns the
/// error.
pub(crate) fn count_fault(faults: &mut u64) -> Failed
    ensures { faults.new ≡ counted faults.old }
{
    *faults = one_more(*faults);
    Failed
}
