//! The values of requests.

use crate::asserts::assert_holds;
use crate::questions::asked;
use decimal_text::Text;
use question::{Command, Layout, Origin, Question, ZoneWord};
use std::alloc::Global;
use std::process::Abort;

/// The values of a question: an empty name for none, and the sheets as their number.
struct Values {
    command: Command,
    file: &'static str,
    offsets: &'static str,
    station: &'static str,
    certificate: &'static str,
    begin: Option<i64>,
    end: Option<i64>,
    mark: Option<i64>,
    step: i64,
    zone: Option<i32>,
    zone_file: &'static str,
    layout: Layout,
    seed: Option<u64>,
    port: u16,
    sheets: usize,
}

/// The values of a question if its arguments give none.
const USUAL: Values = Values {
    command: Command::Predict,
    file: "f",
    offsets: "",
    station: "",
    certificate: "",
    begin: None,
    end: None,
    mark: None,
    step: 60,
    zone: None,
    zone_file: "",
    layout: Layout::Plain,
    seed: None,
    port: 8080,
    sheets: 0,
};

/// Arguments, and the values of the question.
static VALUES: &[(&str, Values)] = &[
    (
        "predict|file=pier.txt|station=Pier|begin=2000-01-10T00:00Z|end=2000-01-11T00:00Z",
        Values {
            file: "pier.txt",
            station: "Pier",
            begin: Some(15_791_040),
            end: Some(15_792_480),
            ..USUAL
        },
    ),
    (
        "predict|end=2000-01-11T00:00Z|begin=2000-01-10T00:00Z|station=Pier|file=a=b|mark=-0.5|zone=-05:30|layout=csv|offsets=o.csv",
        Values {
            file: "a=b",
            offsets: "o.csv",
            station: "Pier",
            begin: Some(15_791_040),
            end: Some(15_792_480),
            mark: Some(-500_000),
            zone: Some(-330),
            layout: Layout::Csv,
            ..USUAL
        },
    ),
    (
        "check|file=f|certificate=c|zone=@rome",
        Values {
            command: Command::Check,
            certificate: "c",
            zone_file: "rome",
            ..USUAL
        },
    ),
    (
        "report|file=f|station=s|begin=2000-01-10T00:00Z|end=2000-01-11T00:00Z|sheets=first,tally,range",
        Values {
            command: Command::Report,
            station: "s",
            begin: Some(15_791_040),
            end: Some(15_792_480),
            sheets: 3,
            ..USUAL
        },
    ),
    (
        "sample|seed=18446744073709551615",
        Values {
            command: Command::Sample,
            file: "",
            seed: Some(u64::MAX),
            ..USUAL
        },
    ),
    (
        "serve|file=f|port=65535",
        Values {
            command: Command::Serve,
            port: 65535,
            ..USUAL
        },
    ),
];

/// Returns true if `name` is `text`, or isn't there and `text` is empty.
fn is_name(name: &Option<Text>, text: &str) -> bool {
    match name {
        Some(name) => name.as_str() == text,
        None => text.is_empty(),
    }
}

fn is_zone(zone: &ZoneWord, utc_offset: Option<i32>, file: &str) -> bool {
    match zone {
        ZoneWord::Utc => utc_offset.is_none() & file.is_empty(),
        ZoneWord::Fixed(minutes) => utc_offset == Some(*minutes),
        ZoneWord::Named(name) => name.as_str() == file,
    }
}

fn sheets_of(question: &Question) -> usize {
    match &question.sheets {
        Some(words) => words.as_slice().len(),
        None => 0,
    }
}

fn has_names(question: &Question, values: &Values) -> bool {
    is_name(&question.file, values.file)
        & is_name(&question.offsets, values.offsets)
        & is_name(&question.station, values.station)
        & is_name(&question.certificate, values.certificate)
        & is_zone(&question.zone, values.zone, values.zone_file)
}

fn has_numbers(question: &Question, values: &Values) -> bool {
    (question.begin == values.begin)
        & (question.end == values.end)
        & (question.mark == values.mark)
        & (question.step == values.step)
        & (question.seed == values.seed)
        & (question.port == values.port)
        & (sheets_of(question) == values.sheets)
}

fn has_values(question: &Question, values: &Values) -> bool {
    (question.command == values.command)
        & (question.layout == values.layout)
        & has_names(question, values)
        & has_numbers(question, values)
}

fn is_read(rt: &impl Abort, alloc: Global, words: &str, values: &Values) -> bool {
    let question = asked(rt, alloc, Origin::Line, words).expect(rt, "a question");
    has_values(&question, values)
}

#[test]
fn questions_have_their_values(rt: HostRuntime) {
    for (words, values) in VALUES {
        assert_holds(&rt, is_read(&rt, rt.alloc(), words, values), *words);
    }
}
