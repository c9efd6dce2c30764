//! Faults with their lines, and streamed answers with writes that fail.

use harmonics_text::{BookFault, Why};
use question::{AskFault, Key};
use station_table::{OffsetFault, OffsetWhy};
use tide_answer::{Fault, Refusal, Slot};

/// A fault without a text.
pub enum PlainFault {
    Ask(AskFault),
    Book(BookFault),
    Offsets(OffsetFault),
    BadZone,
    ZoneTooLong,
    Refused(Refusal),
}

impl PlainFault {
    pub fn fault(&self) -> Fault {
        match *self {
            PlainFault::Ask(fault) => Fault::Ask(fault),
            PlainFault::Book(fault) => Fault::Book(fault),
            PlainFault::Offsets(fault) => Fault::Offsets(fault),
            PlainFault::BadZone => Fault::BadZone,
            PlainFault::ZoneTooLong => Fault::TooLong(Slot::Zone),
            PlainFault::Refused(refusal) => Fault::Refused(refusal),
        }
    }
}

/// Faults, with the exit status of the program and the line that it prints: invalid arguments, files with
/// an error, and refused requests.
pub static FAULTS: &[(PlainFault, u8, &str)] = &[
    (
        PlainFault::Ask(AskFault::UnknownCommand),
        2,
        "words: unknown command\n",
    ),
    (
        PlainFault::Ask(AskFault::NotAPair(1)),
        2,
        "words: pair 1 is not key=value\n",
    ),
    (
        PlainFault::Ask(AskFault::UnknownKey(12)),
        2,
        "words: pair 12 has an unknown key\n",
    ),
    (
        PlainFault::Ask(AskFault::RepeatedKey(3)),
        2,
        "words: pair 3 repeats a key\n",
    ),
    (
        PlainFault::Ask(AskFault::BadValue(4)),
        2,
        "words: pair 4 has a bad value\n",
    ),
    (
        PlainFault::Ask(AskFault::MissingKey(Key::Sheets)),
        2,
        "words: sheets is missing\n",
    ),
    (
        PlainFault::Book(BookFault::At {
            line: 16,
            why: Why::CutShort,
        }),
        3,
        "file: line 16: cut short (11)\n",
    ),
    (
        PlainFault::Offsets(OffsetFault::At {
            row: 2,
            why: OffsetWhy::HalfSlack,
        }),
        3,
        "offsets: row 2: half slack (8)\n",
    ),
    (PlainFault::BadZone, 3, "zone: bad zone file\n"),
    (PlainFault::ZoneTooLong, 3, "zone: too long\n"),
    (
        PlainFault::Refused(Refusal::Hydraulic),
        4,
        "refused: hydraulic\n",
    ),
    (
        PlainFault::Refused(Refusal::SpanTooLong { minutes: 5_270_401 }),
        5,
        "limit: span of 5270401 minutes\n",
    ),
    (
        PlainFault::Refused(Refusal::TooSteep { year: 1999 }),
        5,
        "limit: too steep in 1999\n",
    ),
    (
        PlainFault::Refused(Refusal::NotACertificate { line: 9 }),
        3,
        "certificate: line 9\n",
    ),
    (
        PlainFault::Refused(Refusal::BadSample {
            line: 3,
            why: Why::BadNumber,
        }),
        3,
        "file: line 3: bad number (3)\n",
    ),
    (PlainFault::Refused(Refusal::NoMemory), 8, "no memory\n"),
];

/// Examples of answers that are streamed through a buffer of 4,096 bytes: the arguments, and for each
/// run the greatest number of bytes that one write accepts, the number of the write that fails, counted
/// from 1 (0 if none fails), and the number of bytes accepted before it (`None` if none fails).
pub const STREAMS: &[(&str, &[(u64, u64, Option<u64>)])] = &[
    (
        "predict|file=f|station=Pier|begin=2000-01-10T00:00Z|end=2000-02-24T00:00Z",
        // The name has 4 bytes and the end of its line 1; the buffers have 43 half days of 95
        // bytes, 43 and 4.
        &[
            (5000, 0, None),
            (5000, 3, Some(5)),
            (5000, 4, Some(4090)),
            (5000, 5, Some(8175)),
            (10, 0, None),
            (10, 600, Some(5970)),
        ],
    ),
    (
        "certify|file=f|station=Flow|begin=2000-01-10T00:00Z|end=2000-01-30T00:00Z",
        // The head has 88 bytes in four writes and the heading 11, and the track's buffers 4095 and
        // 1265. The next heading has 12, that track's buffers 4093 and 337, and the last line 5.
        &[
            (5000, 0, None),
            (5000, 7, Some(4194)),
            (5000, 10, Some(9564)),
            (1000, 16, Some(7471)),
            (5000, 12, None),
        ],
    ),
];
