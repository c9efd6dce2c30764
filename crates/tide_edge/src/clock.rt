//! Clocks that show the present minute.

ghost use Rattle.std.specs.Prelude.{◌≡◌, IfOk};
ghost use Rattle.tide_edge.specs.Clocks.{ClockState, IsClockMinute, IsLawful, clock_after};

mod in_memory;
mod of_host;

use crate::failed::Failed;
pub use in_memory::FixedClock;
pub use of_host::HostClock;

/// A clock that shows the present minute.
///
/// In contracts, `state` has the readings until now, each a minute or a failure, and the number of
/// failures. If its flag `is_observable` is true, as for a clock in memory, it also has the future
/// readings. The machine's clock isn't observable. No call changes the flag or the future readings.
pub trait Clock {
    ghost state: { Self → ClockState };

    /// Reads the clock, and returns the present minute: whole minutes since 1970-01-01T00:00Z, from
    /// -10,000,000,000 to 10,000,000,000. If the clock is observable (its state has the minute of
    /// each reading), a reading that succeeds returns the minute that the state has.
    ///
    /// # Errors
    /// [`Failed`] if the clock can't be read or shows a minute out of this range.
    fn minute(&mut self) -> Result<i64, Failed>
        ensures after { state self.new ≡ clock_after result (state self.old) }
        ensures in_range { IfOk result IsClockMinute };

    /// If the future readings are observable, the readings until now are the first of those that the clock
    /// has.
    ghost lawful: { (clock : Self) → IsLawful (state clock) };
}
