//! Streamed answers over a pier and a current, the lines of faults, and laws.

mod case;
mod rows;

ghost use Rattle.harmonics_book.specs.Books.{IsBook};
ghost use Rattle.question.specs.Asked.{IsAsked};
ghost use Rattle.tide_answer.specs.Givens.{IsGiven};

use crate::asserts::{assert_bytes, assert_count, assert_holds};
use case::{Case, asked};
use decimal_text::{Bytes, Text};
use harmonics_book::Book;
use harmonics_text::read_book;
use question::ValidQuestion;
use rows::{FAULTS, STREAMS};
use station_span::{worked_levels, worked_spans};
use station_table::{OffsetTable, read_offsets};
use std::alloc::Global;
use std::process::Abort;
use tide_answer::{
    Fault, Given, accepted_is_short, accepted_is_true, accepted_peak_is_short,
    accepted_peak_is_true, answer_alone, certified_is_accepted, fault_line, fault_status,
    highest_is_reported, peak_certified_is_accepted, peak_certified_is_short, sample_row_counts,
};
use tide_edge::MemorySink;
use tide_fault::worked_lines;
use zone_time::Zone;

const PIER: &[u8] =
    b"1\nS2 30\n1999\n3\nS2\n0 0 0\n*END*\n3\nS2\n1 1 1\n*END*\nPier\n0:00 :UTC\n0 feet\nS2 1 0\n\
    Flow\n0:00 :UTC\n0 knots\nS2 1 0\n";

const TABLE: &[u8] =
    b"name,reference,high_add,low_add,high_times,low_times,high_plus,low_plus,flood_add,ebb_add\n\
    Dock,Pier,0:30,-0:10,1.1,0.9,0.1,0,,\nOuter,Pier,0:30,0:30,2,2,0.5,0.5,,\n\
    Lost,Nowhere,0:00,0:00,1,1,0,0,,\nGate,Flow,0:30,-0:10,1.1,0.9,0.1,0,0:05,-0:05\n";

/// Returns the harmonic constants of a pier and a current, both with a period of half a day, for the
/// years 1999 to 2001.
fn pier(rt: &impl Abort, alloc: Global) -> Book
    ensures { IsBook result }
{
    read_book(alloc, PIER).expect(rt, "a book")
}

/// Returns a table of subordinate stations of the pier and of the current.
fn table(rt: &impl Abort, alloc: Global) -> OffsetTable {
    read_offsets(alloc, TABLE).expect(rt, "a table")
}

/// Returns the request of the arguments in `line`, separated by `|`, about the pier, the current or a
/// subordinate station, in universal time, with an empty certificate, at 2000-01-10T03:00Z.
fn pier_case(rt: &impl Abort, alloc: Global, line: &str) -> Case
    ensures book { IsBook result.book }
    ensures question { IsAsked result.question }
    ensures inputs { IsGiven result.inputs }
{
    Case {
        book: pier(rt, alloc),
        table: table(rt, alloc),
        question: asked(rt, alloc, line),
        inputs: Given {
            zone: Zone::Utc,
            certificate: Bytes::from_vec(Vec::new(alloc)),
            now: 15_791_220,
        },
    }
}

/// Returns a sink that accepts `most` bytes in a write, and at which the write with the number `failing`
/// fails.
fn sink(rt: &impl Abort, alloc: Global, most: u64, failing: u64) -> MemorySink {
    let fails = [failing].to_vec(alloc).expect(rt, "a schedule");
    MemorySink::new(alloc, most.max(1), 100_000, fails).expect(rt, "a sink")
}

/// Writes the answer to `line` to `sink`, and returns the number of bytes sent before a write that failed.
fn stream(rt: &impl Abort, alloc: Global, line: &str, sink: &mut MemorySink) -> Option<u64> {
    let case = pier_case(rt, alloc, line);
    case.send(alloc, sink).expect(rt, "an answer")
}

/// Asserts which bytes of an answer were `taken` if the write with the number `failing` fails after
/// `expected` bytes.
fn assert_taken(
    rt: &impl Abort,
    taken: &[u8],
    sent: Option<u64>,
    text: &[u8],
    line: &str,
    &(most, failing, expected): &(u64, u64, Option<u64>),
) {
    assert_eq!(rt;
        sent,
        expected,
        "{line}, call {failing} of {most} bytes fails"
    );
    let count = expected.unwrap_or(text.len() as u64);
    assert_holds(rt, taken.len() as u64 == count, line);
    assert_holds(rt, text.starts_with(taken), line);
}

fn assert_streamed(
    rt: &impl Abort,
    alloc: Global,
    line: &str,
    text: &[u8],
    call: &(u64, u64, Option<u64>),
) {
    let mut sink = sink(rt, alloc, call.0, call.1);
    let sent = stream(rt, alloc, line, &mut sink);
    assert_taken(rt, sink.bytes(), sent, text, line, call);
}

fn assert_streams(rt: &impl Abort, alloc: Global, line: &str, calls: &[(u64, u64, Option<u64>)]) {
    let mut whole = sink(rt, alloc, 5_000, 0);
    stream(rt, alloc, line, &mut whole);
    assert_holds(rt, whole.bytes().len() > 4_096, line);
    for call in calls {
        assert_streamed(rt, alloc, line, whole.bytes(), call);
    }
}

#[test]
fn answers_are_written_as_they_are_found(rt: HostRuntime) {
    for &(line, calls) in STREAMS {
        assert_streams(&rt, rt.alloc(), line, calls);
    }
}

/// Asserts that the answer to `line`, for which no file is read, is `text`.
fn assert_alone(rt: &impl Abort, alloc: Global, line: &str, text: &str) {
    let question = asked(rt, alloc, line);
    let answer = answer_alone(alloc, &ValidQuestion::new(&question)).expect(rt, "an answer");
    assert_bytes(rt, answer.text.as_slice(), text.as_bytes(), line);
}

#[test]
fn a_trial_needs_no_file(rt: HostRuntime) {
    assert_alone(&rt, rt.alloc(), "trial|seed=0", TRIAL);
}

const TRIAL: &str = "seed 0\nstations 40\nminutes 4285440\nevents 10902\ncells 325629\n\
    quiet 237516\naccepted 40\n";

fn assert_line(rt: &impl Abort, alloc: Global, fault: &Fault, status: u8, line: &str) {
    let printed = fault_line(alloc, fault, &OffsetTable::new(alloc)).expect(rt, "a line");
    assert_count(
        rt,
        usize::from(fault_status(fault).number()),
        usize::from(status),
        line,
    );
    assert_bytes(rt, printed.as_slice(), line.as_bytes(), line);
}

#[test]
fn faults_have_their_lines(rt: HostRuntime) {
    for (fault, status, line) in FAULTS {
        assert_line(&rt, rt.alloc(), &fault.fault(), *status, line);
    }
}

#[test]
fn an_unknown_sheet_has_its_line(rt: HostRuntime) {
    let alloc = rt.alloc();
    let word = Text::from_str(alloc, "graph").expect(&rt, "a word");
    let line = "refused: no sheet graph\n";
    assert_line(&rt, alloc, &Fault::NoSheet { word }, 4, line);
}

#[test]
fn laws_and_rows_stand(_rt: HostRuntime) {
    worked_lines();
    worked_spans();
    sample_row_counts();
    worked_levels();
    certified_is_accepted();
    accepted_is_true();
    accepted_is_short();
    highest_is_reported();
    peak_certified_is_accepted();
    peak_certified_is_short();
    accepted_peak_is_true();
    accepted_peak_is_short();
}
