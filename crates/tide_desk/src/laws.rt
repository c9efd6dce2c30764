//! The contract of a run over objects in memory.

ghost use Rattle.tide_desk.specs.InMemory.{MemoryHoldsTheAnswer};

/// Proves, for a call of [`run`](crate::run) with files, a clock and outputs in memory, that the exit
/// status is the status of the answer, unless it is a read fault; and that, if the run is done or
/// rejects a certificate, an output that was empty then has exactly the text of the answer.
pub fn memory_holds_the_answer()
    ensures { MemoryHoldsTheAnswer }
{}
