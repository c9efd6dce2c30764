//! The rows of the tests. Expected values were computed by an independent program.

use super::{CASE, Case, Source};
use sample_tides::PIER;

pub const PREDICT: &str =
    "predict|file=pier.txt|station=Pier|begin=2000-01-10T00:00Z|end=2000-01-11T00:00Z";

pub const NOW: &str = "Pier\nNow 2000-01-10 03:00 UTC       0.00 feet  Falling\n\
    2000-01-10 06:00 UTC      -1.00 feet  Low Tide\n\
    2000-01-10 11:59 UTC       1.00 feet  High Tide\n\
    2000-01-10 18:00 UTC      -1.00 feet  Low Tide\n\
    2000-01-10 23:59 UTC       1.00 feet  High Tide\n";

pub const NO_STATION: &str =
    "predict|file=pier.txt|station=Pie|begin=2000-01-10T00:00Z|end=2000-01-11T00:00Z";

pub const LATE: &str =
    "predict|file=pier.txt|station=Pier|begin=2001-12-31T12:00Z|end=2002-01-01T00:01Z";

pub const OUT_OF_YEARS: &str =
    "refused: out of years: file has 1999-01-01T00:00Z to 2002-01-01T00:00Z\n";

/// Runs that succeed, each with the text that it prints.
pub static ANSWERS: [Case<'static>; 17] = [
    CASE,
    Case {
        file: Source::Line(PIER, 16, "S2 0 0"),
        out: "Pier\n",
        ..CASE
    },
    Case {
        words: "predict|file=pier.txt|station=Pier|begin=2000-01-10T23:59Z|end=2000-01-11T00:00Z",
        out: "Pier\n2000-01-10 23:59 UTC       1.00 feet  High Tide\n",
        ..CASE
    },
    Case {
        file: Source::Line(PIER, 15, "0 knots"),
        words: "predict|file=pier.txt|station=Pier|begin=2000-01-10T00:00Z|end=2000-01-10T12:00Z",
        out: "Pier\n\
         2000-01-10 02:59 UTC       0.01 knots  Slack Ebb Begins\n\
         2000-01-10 06:00 UTC      -1.00 knots  Max Ebb\n\
         2000-01-10 09:00 UTC       0.00 knots  Slack Flood Begins\n\
         2000-01-10 11:59 UTC       1.00 knots  Max Flood\n",
        ..CASE
    },
    Case {
        words: "predict|file=pier.txt|station=Pier|begin=2000-01-10T23:58Z|end=2000-01-10T23:59Z",
        out: "Pier\n",
        ..CASE
    },
    Case {
        words: "predict|file=pier.txt|station=Pier|begin=2000-01-10T00:00Z|end=2000-01-10T00:00Z",
        out: "Pier\n",
        ..CASE
    },
    Case {
        words: "predict|file=pier.txt|station=Pier|begin=2002-01-01T00:00Z|end=2002-01-01T00:00Z",
        out: "Pier\n",
        ..CASE
    },
    Case {
        words: "predict|file=pier.txt|station=Pier|begin=1999-01-01T00:00Z|end=1999-01-01T06:01Z",
        out: "Pier\n1999-01-01 06:00 UTC      -1.00 feet  Low Tide\n",
        ..CASE
    },
    Case {
        file: Source::Line(PIER, 16, "S2 1 0\nPier\n0:00\n5 feet\nS2 1 0"),
        words: "predict|file=pier.txt|station=Pier|begin=2000-01-10T23:59Z|end=2000-01-11T00:00Z",
        out: "Pier\n2000-01-10 23:59 UTC       1.00 feet  High Tide\n",
        ..CASE
    },
    Case {
        file: Source::Line(PIER, 7, "0 60 60"),
        words: "predict|file=pier.txt|station=Pier|begin=1999-12-31T22:00Z|end=2000-01-01T02:00Z",
        out: "Pier\n1999-12-31 23:27 UTC       0.94 feet  High Tide\n",
        ..CASE
    },
    Case {
        file: Source::Line(PIER, 16, "S2 333.333333 0"),
        words: "predict|file=pier.txt|station=Pier|begin=2000-01-10T05:00Z|end=2000-01-10T12:00Z",
        out: "Pier\n2000-01-10 06:00 UTC    -333.33 feet  Low Tide\n\
         2000-01-10 11:59 UTC     333.32 feet  High Tide\n",
        ..CASE
    },
    Case {
        file: Source::Line(PIER, 16, "S2 -1 0"),
        words: "predict|file=pier.txt|station=Pier|begin=2000-01-10T00:00Z|end=2000-01-10T12:00Z",
        out: "Pier\n2000-01-10 00:00 UTC      -1.00 feet  Low Tide\n\
         2000-01-10 05:59 UTC       1.00 feet  High Tide\n",
        ..CASE
    },
    Case {
        file: Source::Line(PIER, 15, "0.125 meters"),
        words: "predict|file=pier.txt|station=Pier|begin=2000-01-10T06:00Z|end=2000-01-10T12:00Z",
        out: "Pier\n2000-01-10 06:00 UTC      -0.88 meters  Low Tide\n\
         2000-01-10 11:59 UTC       1.12 meters  High Tide\n",
        ..CASE
    },
    Case {
        words: "predict|file=pier.txt|station=Pier|begin=2001-12-31T12:00Z|end=2002-01-01T00:00Z",
        out: "Pier\n2001-12-31 18:00 UTC      -1.00 feet  Low Tide\n\
         2001-12-31 23:59 UTC       1.00 feet  High Tide\n",
        ..CASE
    },
    Case {
        file: Source::Line(PIER, 16, "S2 1 0\nQuay\n0:00\n2 knots^2\nx 0 0"),
        words: "stations|file=pier.txt",
        out: "Ref feet Pier\nRef knots^2 Quay\n",
        ..CASE
    },
    Case {
        words: "clock|file=pier.txt|station=Pier",
        out: NOW,
        ..CASE
    },
    // the pairs may be in any order
    Case {
        words: "predict|end=2000-01-11T00:00Z|station=Pier|zone=UTC|begin=2000-01-10T00:00Z|file=pier.txt",
        ..CASE
    },
];
