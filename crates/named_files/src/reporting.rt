//! The line that reports why there is no answer.

ghost use Rattle.std.specs.Prelude.{◌≡◌, Bool};
ghost use Rattle.tide_fault.specs.Faults.{line_of as line_of_fault, status_of as status_of_fault};
ghost use Rattle.named_files.specs.RunFaults.{is_read_fault, is_unread};
ghost use Rattle.tide_edge.specs.SinkStates.{Wrote};
ghost use Rattle.named_files.specs.Reporting.{Reports, ReportsFault};

use crate::run_fault::RunFault;
use station_table::OffsetTable;
use std::alloc::Global;
use tide_edge::{Sink, write_all};
use tide_fault::{Fault, Status, fault_line, fault_status};

/// Writes to `err` the line that reports `none`, the reason why there is no answer, and returns the exit
/// status for this reason, even if the write fails. If memory runs out for the line, that is reported in
/// its place, except for [`RunFault::Unread`].
pub fn report<E: Sink>(alloc: Global, none: RunFault, err: &mut E) -> Status
    ensures reported { Reports none result (E.state err.old) (E.state err.new) }
    ensures read { is_read_fault result ≡ is_unread none }
{
    match none {
        RunFault::Unread => refuse(err, Status::ReadFault, b"read fault\n"),
        RunFault::Faulty(fault) => {
            let table = OffsetTable::new(alloc);
            report_fault(alloc, &fault, &table, err)
        }
        RunFault::Refused(refusal, table) => {
            report_fault(alloc, &Fault::Refused(refusal), &table, err)
        }
    }
}

/// Writes the line of `fault`, and returns its exit status.
fn report_fault<E: Sink>(alloc: Global, fault: &Fault, table: &OffsetTable, err: &mut E) -> Status
    ensures { ReportsFault (status_of_fault fault.now) (line_of_fault table.now fault.now) result (E.state err.old) (E.state err.new) }
{
    match fault_line(alloc, fault, table) {
        Ok(line) => refuse(err, fault_status(fault), line.as_slice()),
        Err(_) => refuse(err, Status::NoMemory, b"no memory\n"),
    }
}

/// Writes `line` to `err`, and returns `status` unchanged, even if the write fails. A failed write isn't
/// tried again.
pub fn refuse<E: Sink>(err: &mut E, status: Status, line: &[u8]) -> Status
    ensures same { result ≡ status }
    ensures line { (failed : Bool) × Wrote (E.state err.old) (E.state err.new) failed line.now }
{
    print_line(err, line);
    status
}

/// Writes `line` to `err`. A failed write is ignored, and isn't tried again.
pub fn print_line<E: Sink>(err: &mut E, line: &[u8])
    ensures { (failed : Bool) × Wrote (E.state err.old) (E.state err.new) failed line.now }
{
    let _ = write_all(err, line);
}
