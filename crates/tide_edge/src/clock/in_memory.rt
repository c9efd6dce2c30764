//! A clock that always shows the same minute.

ghost use Rattle.std.specs.Prelude.{◌≡◌, ◌+◌, IfOk};
ghost use Rattle.tide_edge.specs.Clocks.{IsClockMinute};

use crate::clock::Clock;
use crate::failed::Failed;
use crate::fault_schedule::FaultSchedule;
use ghost_log::Log;
use std::marker::Model;

/// A clock in memory that always shows the same minute. Contracts know its future readings.
#[derive(Drop)]
pub struct FixedClock {
    minute: i64,
    readings: Log<()>,
    fault_schedule: FaultSchedule,
}

impl Model for FixedClock {
    ghost use Rattle.std.specs.Prelude.{◌≡◌, length};
    ghost use Rattle.tide_edge.specs.Clocks.{IsClockMinute};
    ghost use Rattle.tide_edge.specs.FaultSchedule.{calls_after};
    ghost use Rattle.tide_edge.specs.Memory.{HeldClock};

    ghost Value = { HeldClock };

    ghost view = { λ c. record { minute = c.minute; fails = c.fault_schedule.fails; readings = length c.readings.items } };

    ghost invariant = { λ c. IsClockMinute c.minute × (c.fault_schedule ≡ calls_after c.fault_schedule.fails (length c.readings.items)) };
}

impl FixedClock {
    /// Returns a clock that shows `minute`, in minutes since 1970-01-01T00:00Z, from
    /// -10,000,000,000 to 10,000,000,000. The calls with a number in `fails`, counted from 1, fail.
    pub fn new(minute: i64, fails: Vec<u64>) -> FixedClock
        requires { IsClockMinute minute }
        ensures { result ≡ record { minute = minute; fails = fails.items; readings = 0 } }
    {
        FixedClock {
            minute,
            readings: Log::new(),
            fault_schedule: FaultSchedule::new(fails),
        }
    }
}

impl Clock for FixedClock {
    ghost use Rattle.tide_edge.specs.Clocks.{clock_after};
    ghost use Rattle.tide_edge.specs.FaultSchedule.{answer};
    ghost use Rattle.tide_edge.specs.Memory.{clock_state, is_reading_to_fail};
    ghost use Rattle.tide_edge.specs.Workings.HeldClocks.{held_lawful};

    ghost state = { λ c. clock_state c };

    ghost lawful = { λ c _. held_lawful _ _ c.readings };

    fn minute(&mut self) -> Result<i64, Failed>
        ensures answer { result ≡ answer (is_reading_to_fail self.old self.old.readings) self.old.minute }
        ensures counted { self.new ≡ record self.old { readings = self.old.readings + 1 } }
        ensures after { clock_state self.new ≡ clock_after result (clock_state self.old) }
        ensures in_range { IfOk result IsClockMinute }
    {
        self.readings = self.readings.then(&[()]);
        self.fault_schedule.next()?;
        Ok(self.minute)
    }
}
