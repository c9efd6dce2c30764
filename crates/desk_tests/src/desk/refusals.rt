//! Runs that are refused. Expected values were computed by an independent program.

use super::rows::{LATE, NO_STATION, OUT_OF_YEARS};
use super::{CASE, Case, Source};
use sample_tides::PIER;

const BACKWARD: &str =
    "predict|file=pier.txt|station=Pier|begin=2000-01-10T00:01Z|end=2000-01-10T00:00Z";

/// A file of eleven years of a tide of 12 hours.
const STEADY_YEARS: &str =
    "1\nS2 30\n1999\n11\nS2\n0 0 0 0 0 0 0 0 0 0 0\n*END*\n11\nS2\n1 1 1 1 1 1 1 1 1 1 1\n*END*\nPier\n0:00\n\
    0 feet\nS2 1 0\n";

/// A file of three years of a tide of 800 feet.
const STEEP_YEARS: &str =
    "1\nS2 30\n1999\n3\nS2\n0 0 0\n*END*\n3\nS2\n1 1 1\n*END*\nPier\n0:00\n0 feet\nS2 800 0\n";

/// Runs with invalid arguments or refused requests, in the order in which the program checks them, and
/// runs that check false certificates.
pub static REFUSALS: [Case<'static>; 34] = [
    Case {
        words: "",
        status: 2,
        out: "",
        err: "words: no command\n",
        ..CASE
    },
    Case {
        words: "PREDICT|file=pier.txt",
        status: 2,
        out: "",
        err: "words: unknown command\n",
        ..CASE
    },
    Case {
        words: "serve|file=pier.txt|x",
        status: 2,
        out: "",
        err: "words: unknown command\n",
        ..CASE
    },
    Case {
        words: "predict|x",
        status: 2,
        out: "",
        err: "words: pair 1 is not key=value\n",
        ..CASE
    },
    Case {
        words: "stations|FILE=pier.txt",
        status: 2,
        out: "",
        err: "words: pair 1 has an unknown key\n",
        ..CASE
    },
    Case {
        words: "stations|file=pier.txt|zone=UTC",
        status: 2,
        out: "",
        err: "words: pair 2 has an unknown key\n",
        ..CASE
    },
    Case {
        words: "stations|file=a|file=b",
        status: 2,
        out: "",
        err: "words: pair 2 repeats a key\n",
        ..CASE
    },
    Case {
        words: "stations|file=",
        status: 2,
        out: "",
        err: "words: pair 1 has a bad value\n",
        ..CASE
    },
    Case {
        words: "predict|file=quay.txt|station=Pier|begin=2000-01-10",
        status: 2,
        out: "",
        err: "words: pair 3 has a bad value\n",
        ..CASE
    },
    Case {
        words: "predict|file=pier.txt",
        status: 2,
        out: "",
        err: "words: station is missing\n",
        ..CASE
    },
    Case {
        words: "clock|file=quay.txt|station=Pier",
        status: 6,
        out: "",
        err: "read fault\n",
        ..CASE
    },
    Case {
        words: "stations|file=quay.txt",
        status: 6,
        out: "",
        err: "read fault\n",
        ..CASE
    },
    Case {
        words: "stations|file==pier.txt",
        status: 6,
        out: "",
        err: "read fault\n",
        ..CASE
    },
    Case {
        file: Source::Line(PIER, 3, "S2 30.00000001"),
        status: 3,
        out: "",
        err: "file: line 3: too fine (4)\n",
        ..CASE
    },
    Case {
        file: Source::Line(PIER, 9, "2"),
        status: 3,
        out: "",
        err: "file: line 9: years differ (6)\n",
        ..CASE
    },
    Case {
        file: Source::Line(PIER, 16, "M2 1 0"),
        status: 3,
        out: "",
        err: "file: line 16: wrong constituent (7)\n",
        ..CASE
    },
    Case {
        file: Source::Line(PIER, 3, "S2 30.00000001"),
        words: NO_STATION,
        status: 3,
        out: "",
        err: "file: line 3: too fine (4)\n",
        ..CASE
    },
    Case {
        file: Source::Line(PIER, 13, "Quay"),
        status: 4,
        out: "",
        err: "refused: no station\n",
        ..CASE
    },
    Case {
        file: Source::Line(PIER, 15, "0 knots^2"),
        words: NO_STATION,
        status: 4,
        out: "",
        err: "refused: no station\n",
        ..CASE
    },
    Case {
        file: Source::Line(PIER, 15, "0 knots^2"),
        words: BACKWARD,
        status: 4,
        out: "",
        err: "refused: hydraulic\n",
        ..CASE
    },
    Case {
        file: Source::Line(PIER, 15, "0 knots^2"),
        status: 4,
        out: "",
        err: "refused: hydraulic\n",
        ..CASE
    },
    Case {
        words: BACKWARD,
        status: 4,
        out: "",
        err: "refused: backward span\n",
        ..CASE
    },
    Case {
        words: "predict|file=pier.txt|station=Pier|begin=2002-01-01T00:02Z|end=2002-01-01T00:01Z",
        status: 4,
        out: "",
        err: "refused: backward span\n",
        ..CASE
    },
    Case {
        file: Source::Line(PIER, 16, "S2 1000.000001 0"),
        words: "predict|file=pier.txt|station=Pier|begin=1998-12-31T23:59Z|end=1999-01-02T00:00Z",
        status: 4,
        out: "",
        err: OUT_OF_YEARS,
        ..CASE
    },
    Case {
        words: LATE,
        status: 4,
        out: "",
        err: OUT_OF_YEARS,
        ..CASE
    },
    Case {
        file: Source::Line(PIER, 16, "S2 333.333334 0"),
        status: 5,
        out: "",
        err: "limit: too steep in 1999\n",
        ..CASE
    },
    Case {
        file: Source::Line(PIER, 16, "S2 1000.000001 0"),
        status: 5,
        out: "",
        err: "limit: too large in 1999\n",
        ..CASE
    },
    Case {
        file: Source::Line(STEADY_YEARS, 15, "S2 1 0"),
        words: "predict|file=pier.txt|station=Pier|begin=1999-01-02T00:00Z|end=2009-01-09T00:01Z",
        status: 5,
        out: "",
        err: "limit: span of 5270401 minutes\n",
        ..CASE
    },
    Case {
        file: Source::Line(STEADY_YEARS, 15, "S2 400 0"),
        words: "predict|file=pier.txt|station=Pier|begin=1999-01-02T00:00Z|end=2009-01-09T00:01Z",
        status: 5,
        out: "",
        err: "limit: too steep in 1999\n",
        ..CASE
    },
    Case {
        file: Source::Line(STEEP_YEARS, 10, "0.5 2 2"),
        status: 5,
        out: "",
        err: "limit: too steep in 1999\n",
        ..CASE
    },
    Case {
        file: Source::Line(STEEP_YEARS, 10, "0.1 2 0.5"),
        status: 5,
        out: "",
        err: "limit: too large in 2000\n",
        ..CASE
    },
    Case {
        file: Source::Line(STEEP_YEARS, 10, "0.1 0.5 2"),
        status: 5,
        out: "",
        err: "limit: too steep in 2000\n",
        ..CASE
    },
    Case {
        more: &[(
            "cert",
            Source::Line(
                "tide certificate 2\nstation Pier\nbegin 2000-01-10T00:00Z\nend 2000-01-10T00:08Z\nmark none\n\
         track turn\ns\ns\nq 2\nq 3\ndone\n",
                0,
                "",
            ),
        )],
        words: "check|file=pier.txt|certificate=cert",
        status: 1,
        out: "Rejected: track turn: cells cover 7 of 8 minutes\n",
        ..CASE
    },
    Case {
        more: &[(
            "cert",
            Source::Line(
                "peak certificate 1\nstation Pier\nbegin 2000-01-10T00:00Z\nend 2000-01-10T00:04Z\n\
         at 2000-01-10T00:01Z\nvalue 4147042074624000000000000000000\nm\nm\nm\nm\ndone\n",
                0,
                "",
            ),
        )],
        words: "peakcheck|file=pier.txt|certificate=cert",
        status: 1,
        out: "Rejected: cell 1 is above\n",
        ..CASE
    },
];
