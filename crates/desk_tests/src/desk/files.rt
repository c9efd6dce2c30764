//! Files other than the harmonic constants, and reports: the first fault in their order. Expected values
//! were computed by an independent program.

use super::{CASE, Case, Fails, NONE, Source};
use sample_tides::PIER;

pub const NO_CLOCK: Fails = Fails { clock: 1, ..NONE };

pub const NO_FILE: Fails = Fails { files: 1, ..NONE };

const OFFSETS: &str =
    "predict|file=pier.txt|offsets=o.csv|station=Lost|begin=2000-01-10T00:00Z|end=2000-01-11T00:00Z";

const ZONE: &str =
    "predict|file=pier.txt|zone=@zone|station=Pier|begin=2000-01-10T00:00Z|end=2000-01-11T00:00Z";

const BOTH: &str =
    "heights|file=pier.txt|zone=@zone|offsets=o.csv|station=Pier|begin=2000-01-10T00:00Z|end=2000-01-11T00:00Z";

const CLOCK: &str = "clock|file=pier.txt|station=Pier";

const CHECK: &str = "check|file=pier.txt|offsets=o.csv|certificate=cert";

const TABLE: &str =
    "name,reference,high_add,low_add,high_times,low_times,high_plus,low_plus\nLost,Nowhere,0:00,0:00,1,1,0,0\n";

const SHORT: &str =
    "name,reference,high_add,low_add,high_times,low_times,high_plus,low_plus\nDock,Pier,0:30,-0:10,1.1,0.9,0.1\n";

/// Runs that read an offsets table, a zone file, a certificate or the clock after the harmonics
/// file, each with the first fault in the order of reading.
pub static FILES: [Case<'static>; 12] = [
    Case {
        words: OFFSETS,
        status: 6,
        out: "",
        err: "read fault\n",
        ..CASE
    },
    // the format of the first file is checked before the table is read
    Case {
        file: Source::Line(PIER, 9, "2"),
        words: OFFSETS,
        status: 3,
        out: "",
        err: "file: line 9: years differ (6)\n",
        ..CASE
    },
    Case {
        more: &[("o.csv", Source::Line("", 0, ""))],
        words: OFFSETS,
        status: 3,
        out: "",
        err: "offsets: row 1: bad header (1)\n",
        ..CASE
    },
    Case {
        more: &[("o.csv", Source::Line(SHORT, 0, ""))],
        words: OFFSETS,
        status: 3,
        out: "",
        err: "offsets: row 2: field count (2)\n",
        ..CASE
    },
    Case {
        more: &[("o.csv", Source::Line(TABLE, 0, ""))],
        words: OFFSETS,
        status: 4,
        out: "",
        err: "refused: no reference Nowhere\n",
        ..CASE
    },
    Case {
        words: ZONE,
        status: 6,
        out: "",
        err: "read fault\n",
        ..CASE
    },
    Case {
        more: &[("zone", Source::Line("no zone", 0, ""))],
        words: ZONE,
        status: 3,
        out: "",
        err: "zone: bad zone file\n",
        ..CASE
    },
    // the table is read before the zone
    Case {
        more: &[("o.csv", Source::Line(SHORT, 0, ""))],
        words: BOTH,
        status: 3,
        out: "",
        err: "offsets: row 2: field count (2)\n",
        ..CASE
    },
    Case {
        more: &[("o.csv", Source::Line(TABLE, 0, ""))],
        words: BOTH,
        status: 6,
        out: "",
        err: "read fault\n",
        ..CASE
    },
    Case {
        more: &[("o.csv", Source::Line(TABLE, 0, ""))],
        words: CHECK,
        status: 6,
        out: "",
        err: "read fault\n",
        ..CASE
    },
    Case {
        fails: NO_CLOCK,
        words: CLOCK,
        status: 6,
        out: "",
        err: "read fault\n",
        ..CASE
    },
    // the clock is read before the station is found
    Case {
        file: Source::Line(PIER, 13, "Quay"),
        fails: NO_CLOCK,
        words: CLOCK,
        status: 6,
        out: "",
        err: "read fault\n",
        ..CASE
    },
];

/// Runs with a harmonics file of the greatest length, 67,108,864 bytes, and with files one byte too
/// long, which are refused: a harmonics file, an offsets table, and a zone file of 1,048,577 bytes.
pub static LIMITS: [Case<'static>; 4] = [
    Case {
        file: Source::Behind(67_108_864, PIER),
        words: "stations|file=pier.txt",
        out: "Ref feet Pier\n",
        ..CASE
    },
    Case {
        file: Source::Behind(67_108_865, PIER),
        words: "stations|file=pier.txt",
        status: 3,
        out: "",
        err: "file: too long\n",
        ..CASE
    },
    Case {
        more: &[("o.csv", Source::Behind(67_108_865, ""))],
        words: OFFSETS,
        status: 3,
        out: "",
        err: "offsets: too long\n",
        ..CASE
    },
    Case {
        more: &[("zone", Source::Behind(1_048_577, ""))],
        words: ZONE,
        status: 3,
        out: "",
        err: "zone: too long\n",
        ..CASE
    },
];
