//! Files and faults worked out by hand.

ghost use Rattle.std.specs.Prelude.{◌≡◌, [], codes, Some, Ok, Err};
ghost use Rattle.harmonics_text.specs.declared.fault.BookFault.{BookFault};
ghost use Rattle.harmonics_text.specs.declared.fault.Why.{Why};
ghost use Rattle.harmonics_book.specs.Worked.{pier_book};
ghost use Rattle.question.specs.declared.command.Command.{Command};
ghost use Rattle.question.specs.declared.question.ZoneWord.{ZoneWord};
ghost use Rattle.question.specs.Worked.{bare};
ghost use Rattle.station_table.specs.Worked.{dock_rows};
ghost use Rattle.tide_fault.specs.declared.fault.Fault.{Fault};
ghost use Rattle.tide_fault.specs.declared.refusal.Refusal.{Refusal};
ghost use Rattle.tide_fault.specs.declared.status.Status.{Status};
ghost use Rattle.zone_time.specs.declared.zone.Zone.{Zone};
ghost use Rattle.named_files.specs.RunFaults.{line_of, status_of};
ghost use Rattle.named_files.specs.Readings.{files_in};
ghost use Rattle.named_files.specs.Worked.{pier_alone};

use crate::run_fault::RunFault;

/// Proves examples of reading a request's files.
///
/// - `form_before_table`: if all files are empty, the reported fault is the harmonics file's, not
///   the table's.
/// - `alone`: a request that names only a harmonics file is given its contents, a table without
///   rows, universal time and an empty certificate.
/// - `absent_table`, `absent_zone`, `absent_certificate`: a request that also names a file that
///   doesn't exist ends with a read fault.
pub fn worked_files()
    ensures form_before_table { files_in (λ slot name. Some [])
        (record (bare Command.Stations) { offsets = Some (codes "o.csv") }) (codes "pier.txt")
        ≡ Err (RunFault.Faulty (Fault.Book (BookFault.At 1 Why.CutShort))) }
    ensures alone { files_in pier_alone (bare Command.Stations) (codes "pier.txt")
        ≡ Ok (record { book = pier_book; table = []; zone = Zone.Utc; certificate = [] }) }
    ensures absent_table { files_in pier_alone (record (bare Command.Stations) { offsets = Some (codes "o.csv") })
        (codes "pier.txt") ≡ Err RunFault.Unread }
    ensures absent_zone { files_in pier_alone (record (bare Command.Clock) { zone = ZoneWord.Named (codes "zone") })
        (codes "pier.txt") ≡ Err RunFault.Unread }
    ensures absent_certificate { files_in pier_alone (record (bare Command.Check) { certificate = Some (codes "cert") })
        (codes "pier.txt") ≡ Err RunFault.Unread }
{}

/// Proves the printed line and the exit status of two reasons why there is no answer: row 2 of a table
/// (counted from 0) names a reference station, Nowhere, that the harmonics file doesn't have
/// (`reference`, `refused`); and a file can't be read (`unread`).
#[tactic(auto, unfolding(tide_fault::specs::Faults::line_of, tide_fault::specs::Faults::refusal_line))]
pub fn worked_faults()
    ensures reference { line_of (RunFault.Refused (Refusal.NoReference 2) dock_rows) ≡ codes "refused: no reference Nowhere\n" }
    ensures refused { status_of (RunFault.Refused (Refusal.NoReference 2) dock_rows) ≡ Status.Refused }
    ensures unread { status_of RunFault.Unread ≡ Status.ReadFault }
{}
