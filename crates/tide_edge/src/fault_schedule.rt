//! Counting the calls on an object in memory, some of which fail on purpose.

ghost use Rattle.std.specs.Prelude.{◌≡◌};

use crate::count::one_more;
use crate::failed::Failed;
use std::marker::Model;

/// The calls on an object in memory: the numbers of the calls that fail on purpose (counted from
/// 1), the number of calls made, and the number of calls that have failed. Both counts saturate at
/// the greatest `u64`.
#[derive(Drop)]
pub(crate) struct FaultSchedule {
    fails: Vec<u64>,
    made: u64,
    faults: u64,
}

impl Model for FaultSchedule {
    ghost use Rattle.tide_edge.specs.FaultSchedule.{HeldCalls};

    ghost Value = { HeldCalls };

    ghost view = { λ c. record { fails = c.fails.items; made = c.made; faults = c.faults } };
}

impl FaultSchedule {
    ghost use Rattle.tide_edge.specs.FaultSchedule.{answer, is_to_fail, after_call, schedule_of};
    ghost use Rattle.tide_edge.specs.Faults.{counted};

    /// Returns a schedule before any call. `fails` has the numbers of the calls that are to fail,
    /// counted from 1.
    pub(crate) fn new(fails: Vec<u64>) -> FaultSchedule
        ensures { result ≡ schedule_of fails.items }
    {
        FaultSchedule {
            fails,
            made: 0,
            faults: 0,
        }
    }

    /// Counts a call.
    ///
    /// # Errors
    /// [`Failed`] if the call's number is in `fails`; the failure is counted too.
    pub(crate) fn next(&mut self) -> Result<(), Failed>
        ensures answer { result ≡ answer (is_to_fail self.old) record {} }
        ensures after { self.new ≡ after_call (is_to_fail self.old) self.old }
    {
        if self.is_next_to_fail() {
            return Err(self.fail());
        }
        Ok(())
    }

    /// Counts a call, and returns true if its number is in `fails`. The count of failures doesn't
    /// change.
    pub(crate) fn is_next_to_fail(&mut self) -> bool
        ensures answer { result ≡ is_to_fail self.old }
        ensures after { self.new ≡ record self.old { made = counted self.old.made } }
    {
        self.made = one_more(self.made);
        self.fails.contains(&self.made)
    }

    /// Adds 1 to the count of failures, which saturates at the greatest `u64`, and returns the
    /// error.
    pub(crate) fn fail(&mut self) -> Failed
        ensures { self.new ≡ record self.old { faults = counted self.old.faults } }
    {
        self.faults = one_more(self.faults);
        Failed
    }
}
