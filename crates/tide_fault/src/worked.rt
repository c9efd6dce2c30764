//! Lines and statuses of faults worked out by hand.

ghost use Rattle.std.specs.Prelude.{◌≡◌, [], codes};
ghost use Rattle.question.specs.declared.fault.AskFault.{AskFault};
ghost use Rattle.question.specs.declared.key.Key.{Key};
ghost use Rattle.tide_fault.specs.declared.fault.Fault.{Fault};
ghost use Rattle.tide_fault.specs.declared.refusal.Refusal.{Refusal};
ghost use Rattle.tide_fault.specs.declared.slot.Slot.{Slot};
ghost use Rattle.tide_fault.specs.declared.status.Status.{Status};
ghost use Rattle.tide_fault.specs.Faults.{line_of, status_of};

/// Proves the lines that report some faults, with an empty table of subordinate stations: no
/// command, a missing key, a certificate that is too long, a span without a minute, and a sheet
/// that doesn't exist. Also proves the exit statuses for a repeated key, for a table that is too
/// long, and for a request that ran out of memory.
#[tactic(auto, unfolding(crate::specs::Faults::line_of, crate::specs::Faults::ask_line, crate::specs::Faults::refusal_line))]
pub fn worked_lines()
    ensures no_command { line_of [] (Fault.Ask AskFault.NoCommand) ≡ codes "words: no command\n" }
    ensures missing { line_of [] (Fault.Ask (AskFault.MissingKey Key.Station)) ≡ codes "words: station is missing\n" }
    ensures long { line_of [] (Fault.TooLong Slot.Certificate) ≡ codes "certificate: too long\n" }
    ensures empty { line_of [] (Fault.Refused Refusal.EmptySpan) ≡ codes "refused: empty span\n" }
    ensures no_sheet { line_of [] (Fault.NoSheet (codes "graph")) ≡ codes "refused: no sheet graph\n" }
    ensures words { status_of (Fault.Ask (AskFault.RepeatedKey 2)) ≡ Status.Words }
    ensures file { status_of (Fault.TooLong Slot.Offsets) ≡ Status.FileRefused }
    ensures memory { status_of (Fault.Refused Refusal.NoMemory) ≡ Status.NoMemory }
{}
