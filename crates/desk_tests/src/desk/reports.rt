//! Reports over files, a clock and sinks in memory. Expected values were computed by an independent
//! program.

use super::files::{NO_CLOCK, NO_FILE};
use super::{CASE, Case, Source};
use sample_tides::PIER;

const TALLY_RANGE_DAY: &str = "Pier\n2 High Tide\n2 Low Tide\n\
    Pier\nHighest 1.00 feet 2000-01-10T11:59Z\nLowest -1.00 feet 2000-01-10T06:00Z\n\
    Pier\n2000-01-10 06:00 UTC      -1.00 feet  Low Tide\n\
    2000-01-10 11:59 UTC       1.00 feet  High Tide\n\
    2000-01-10 18:00 UTC      -1.00 feet  Low Tide\n\
    2000-01-10 23:59 UTC       1.00 feet  High Tide\n";

const TALLY_RANGE_TWO: &str = "Pier\n2 High Tide\n2 Low Tide\n\
    Pier\nHighest 1.00 feet 2000-01-10T11:59Z\nLowest -1.00 feet 2000-01-10T06:00Z\n\
    Pier\n2000-01-10 06:00 UTC      -1.00 feet  Low Tide\n\
    2000-01-10 11:59 UTC       1.00 feet  High Tide\n";

const RANGE_CALENDAR_STAMP: &str = "Pier\n\
    Highest 1.00 feet 2000-01-10T11:59Z\nLowest -1.00 feet 2000-01-10T06:00Z\n\
    BEGIN:VCALENDAR\r\nVERSION:2.0\r\n\
    PRODID:-//Tide desk//Tide predictor//EN\r\nBEGIN:VEVENT\r\n\
    UID:15791400-1-50696572@tide.invalid\r\nDTSTAMP:20000110T030000Z\r\n\
    DTSTART:20000110T060000Z\r\nSUMMARY:Pier Low Tide -1.00 feet\r\nEND:VEVENT\r\n\
    END:VCALENDAR\r\n4 events of Pier, told at 15791220\n";

const CURRENT: &str = "Pier\n2 Max Flood\n2 Max Ebb\n2 Slack Flood Begins\n2 Slack Ebb Begins\n";

/// Runs of the command `report` with what they print, and refused ones, in the order in which the
/// program checks them.
pub static REPORTS: [Case<'static>; 12] = [
    Case {
        words: "report|file=pier.txt|station=Pier|begin=2000-01-10T00:00Z|end=2000-01-11T00:00Z|sheets=first,tally,range",
        out: TALLY_RANGE_DAY,
        ..CASE
    },
    Case {
        words: "report|file=pier.txt|station=Pier|begin=2000-01-10T00:00Z|end=2000-01-11T00:00Z|sheets=range,first,tally",
        is_short: true,
        out: TALLY_RANGE_TWO,
        ..CASE
    },
    Case {
        words: "report|file=pier.txt|station=Pier|begin=2000-01-10T00:00Z|end=2000-01-11T00:00Z|sheets=stamp,ical,range",
        out: RANGE_CALENDAR_STAMP,
        ..CASE
    },
    Case {
        words: "report|file=pier.txt|station=Pier|begin=2000-01-10T00:00Z|end=2000-01-11T00:00Z|sheets=tally,graph",
        status: 4,
        out: "",
        err: "refused: no sheet graph\n",
        ..CASE
    },
    // the sheet is refused before the file is read
    Case {
        fails: NO_FILE,
        words: "report|file=pier.txt|station=Pier|begin=2000-01-10T00:00Z|end=2000-01-11T00:00Z|sheets=graph",
        status: 4,
        out: "",
        err: "refused: no sheet graph\n",
        ..CASE
    },
    Case {
        words: "report|file=pier.txt|station=Pier|begin=2000-01-10T00:00Z|end=2000-01-11T00:00Z|sheets=tally,tally",
        status: 2,
        out: "",
        err: "words: pair 5 has a bad value\n",
        ..CASE
    },
    Case {
        fails: NO_CLOCK,
        words: "report|file=pier.txt|station=Pier|begin=2000-01-10T00:00Z|end=2000-01-11T00:00Z|sheets=tally",
        status: 6,
        out: "",
        err: "read fault\n",
        ..CASE
    },
    // the clock is read before the station is found
    Case {
        file: Source::Line(PIER, 13, "Quay"),
        fails: NO_CLOCK,
        words: "report|file=pier.txt|station=Pier|begin=2000-01-10T00:00Z|end=2000-01-11T00:00Z|sheets=tally",
        status: 6,
        out: "",
        err: "read fault\n",
        ..CASE
    },
    Case {
        file: Source::Line(PIER, 13, "Quay"),
        words: "report|file=pier.txt|station=Pier|begin=2000-01-10T00:00Z|end=2000-01-11T00:00Z|sheets=tally",
        status: 4,
        out: "",
        err: "refused: no station\n",
        ..CASE
    },
    Case {
        file: Source::Line(PIER, 15, "0 knots"),
        words: "report|file=pier.txt|station=Pier|begin=2000-01-10T00:00Z|end=2000-01-11T00:00Z|sheets=tally",
        out: CURRENT,
        ..CASE
    },
    Case {
        file: Source::Line(PIER, 15, "0 knots^2"),
        words: "report|file=pier.txt|station=Pier|begin=2000-01-10T00:00Z|end=2000-01-11T00:00Z|sheets=tally",
        status: 4,
        out: "",
        err: "refused: hydraulic\n",
        ..CASE
    },
    Case {
        file: Source::Line(PIER, 16, "S2 0 0"),
        words: "report|file=pier.txt|station=Pier|begin=2000-01-10T00:00Z|end=2000-01-11T00:00Z|sheets=ical,tally",
        out: "Pier\n",
        ..CASE
    },
];
