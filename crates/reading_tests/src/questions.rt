//! Requests, and the faults of queries that aren't requests.

use crate::asserts::assert_holds;
use decimal_text::Words;
use question::{
    AskFault, Command, Key, Origin, Pairs, Question, pairs_of_words, read_question, worked_faults,
    worked_query_faults, worked_questions, worked_values, worked_words,
};
use sample_tides::words_of;
use std::alloc::Global;
use std::process::Abort;

/// The command and the pairs of a query, separated by `|`, and their fault.
static QUERIES: &[(&str, Option<AskFault>)] = &[
    (
        "predict|station=Pier|begin=2000-01-10T00:00Z|end=2000-01-11T00:00Z",
        None,
    ),
    (
        "predict|station=Pier|begin=2000-01-10T00:00Z",
        Some(AskFault::MissingKey(Key::End)),
    ),
    (
        "predict|file=pier.txt|station=Pier",
        Some(AskFault::UnknownKey(1)),
    ),
    ("predict|zone=@zone.tz", Some(AskFault::BadValue(1))),
    (
        "predict|zone=+05:30",
        Some(AskFault::MissingKey(Key::Station)),
    ),
    ("predict|offsets=o", Some(AskFault::UnknownKey(1))),
    (
        "predict|station=A|station=B",
        Some(AskFault::RepeatedKey(2)),
    ),
    (
        "certify|station=Pier|begin=2000-01-10T00:00Z|end=2000-01-11T00:00Z|mark=1",
        None,
    ),
    ("certify|layout=csv", Some(AskFault::UnknownKey(1))),
    (
        "heights|station=Pier|begin=2000-01-10T00:00Z|end=2000-01-11T00:00Z|step=1",
        None,
    ),
    ("heights|step=", Some(AskFault::BadValue(1))),
    (
        "calendar|station=Pier",
        Some(AskFault::MissingKey(Key::Begin)),
    ),
    ("clock|station=Pier|zone=UTC", None),
    ("clock", Some(AskFault::MissingKey(Key::Station))),
    ("stations", None),
    ("stations|file=f", Some(AskFault::UnknownKey(1))),
    ("check|zone=-01:00", None),
    ("check|certificate=c", Some(AskFault::UnknownKey(1))),
    ("check|port=1", Some(AskFault::UnknownKey(1))),
    ("sample", Some(AskFault::UnknownCommand)),
    ("trial", Some(AskFault::UnknownCommand)),
    ("serve", Some(AskFault::UnknownCommand)),
    ("report", Some(AskFault::UnknownCommand)),
    ("highest", Some(AskFault::UnknownCommand)),
    ("peak", Some(AskFault::UnknownCommand)),
    ("peakcheck", Some(AskFault::UnknownCommand)),
    ("about", Some(AskFault::UnknownCommand)),
    ("tides|x", Some(AskFault::UnknownCommand)),
];

/// Returns the arguments in `line`, as arguments of `origin`.
fn pairs_of(rt: &impl Abort, alloc: Global, origin: Origin, line: &str) -> Pairs {
    let words = words_of(alloc, line).expect(rt, "words");
    let mut pairs = pairs_of_words(alloc, &words).expect(rt, "pairs");
    pairs.origin = origin;
    pairs
}

pub fn asked(
    rt: &impl Abort,
    alloc: Global,
    origin: Origin,
    line: &str,
) -> Result<Question, AskFault> {
    let pairs = pairs_of(rt, alloc, origin, line);
    read_question(alloc, &pairs)
}

fn fault_of(rt: &impl Abort, alloc: Global, origin: Origin, line: &str) -> Option<AskFault> {
    asked(rt, alloc, origin, line).err()
}

#[test]
fn faults_of_queries_are_reported(rt: HostRuntime) {
    for (words, fault) in QUERIES {
        let found = fault_of(&rt, rt.alloc(), Origin::Query, words);
        assert_holds(&rt, found == *fault, *words);
    }
}

fn fault_of_nothing(alloc: Global) -> Option<AskFault> {
    match pairs_of_words(alloc, &Words::from_vec(Vec::new(alloc))) {
        Ok(none) => read_question(alloc, &none).err(),
        Err(_) => None,
    }
}

#[test]
fn no_command_is_reported(rt: HostRuntime) {
    let found = fault_of_nothing(rt.alloc());
    assert_holds(&rt, found == Some(AskFault::NoCommand), "no command");
}

#[test]
fn names_stand(rt: HostRuntime) {
    assert!(rt; Command::PeakCheck.text() == "peakcheck");
    assert!(rt; Key::Certificate.text() == "certificate");
}

#[test]
fn worked_rows_stand(_rt: HostRuntime) {
    worked_questions();
    worked_faults();
    worked_query_faults();
    worked_values();
    worked_words();
}
