//! The system clock.

ghost use Rattle.std.specs.Prelude.{◌≡◌, ◌/◌, ◌<◌, pos, false, [], IfSome, MatchOption};
ghost use Rattle.std.specs.Time.{system_time_nanos};
ghost use Rattle.tide_edge.specs.Clocks.{IsClockMinute};

use crate::clock::Clock;
use crate::failed::Failed;
use crate::host_fault::count_fault;
use ghost_log::Log;
use std::time::{SystemTime, UNIX_EPOCH};
use std::{rt, slice};

const LAST_MINUTE: u64 = 10_000_000_000;

/// The clock of the machine. Contracts know its readings until now, but not its future readings.
///
/// A reading fails if the machine's clock can't be read, or if it shows a time before 1970 or more
/// than 10,000,000,000 whole minutes after 1970-01-01T00:00Z.
#[derive(Drop)]
pub struct HostClock<R: rt::Clock + Drop> {
    system: R,
    readings: Log<Option<i64>>,
    faults: u64,
}

impl<R: rt::Clock + Drop> HostClock<R> {
    /// Returns a clock that reads the time of the machine from `system`.
    pub fn new(system: R) -> HostClock<R>
        ensures readings { (⟦<HostClock<R> as Clock>⟧.state result).readings ≡ [] }
        ensures faults { (⟦<HostClock<R> as Clock>⟧.state result).faults ≡ 0 }
    {
        HostClock {
            system,
            readings: Log::new(),
            faults: 0,
        }
    }
}

impl<R: rt::Clock + Drop> Clock for HostClock<R> {
    ghost use Rattle.std.proofs.Common.{true≢false, sym};

    ghost state = { λ h. record {
      is_observable = false;
      minute_at = λ number. pos 0;
      fails_at = λ number. false;
      readings = h.readings.items;
      faults = h.faults;
    } };

    ghost lawful = { λ _ is. absurd (true≢false (sym is)) };

    fn minute(&mut self) -> Result<i64, Failed> {
        let reading = present_minute(&self.system);
        self.readings = self.readings.then(slice::from_ref(&reading));
        match reading {
            Some(minute) => Ok(minute),
            None => Err(count_fault(&mut self.faults)),
        }
    }
}

/// Returns the present time of `system` in whole minutes since 1970-01-01T00:00Z, or `None` if it can't
/// be read or exceeds 10,000,000,000.
fn present_minute(system: &impl rt::Clock) -> Option<i64>
    ensures { IfSome result IsClockMinute }
{
    match SystemTime::now(system) {
        Ok(now) => minute_at(now),
        Err(_) => None,
    }
}

/// Returns the time `now` in whole minutes since 1970-01-01T00:00Z, rounded down, or `None` if
/// these are more than 10,000,000,000.
fn minute_at(now: SystemTime) -> Option<i64>
    ensures exact { MatchOption result (10000000000 < system_time_nanos now / 1000000000 / 60)
        (λ minute. minute ≡ pos (system_time_nanos now / 1000000000 / 60)) }
    ensures in_range { IfSome result IsClockMinute }
{
    match now.duration_since(UNIX_EPOCH) {
        Ok(since) => minute_of(since.as_secs()),
        Err(_) => None,
    }
}

/// Returns `seconds` since 1970-01-01T00:00Z in whole minutes, rounded down, or `None` if these are
/// more than 10,000,000,000.
fn minute_of(seconds: u64) -> Option<i64>
    ensures exact { MatchOption result (10000000000 < seconds / 60) (λ minute. minute ≡ pos (seconds / 60)) }
    ensures in_range { IfSome result IsClockMinute }
{
    let minute = seconds / 60;
    if minute <= LAST_MINUTE {
        Some(minute as i64)
    } else {
        None
    }
}
