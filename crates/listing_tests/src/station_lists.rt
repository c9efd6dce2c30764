//! Lists of stations, and their facts.

ghost use Rattle.std.specs.Prelude.{◌<◌, length};

use crate::asserts::assert_holds;
use crate::lists::{is_text, zone_of};
use decimal_text::{Bytes, Text};
use harmonics_book::{Book, Units};
use harmonics_text::read_book;
use listing::{about_text, highest_text, stations_text};
use station_table::read_offsets;
use std::alloc::{AllocError, Global};
use std::process::Abort;

const BOOK: &[u8] = b"1\nS2 30\n1999\n1\nS2\n0\n*END*\n1\nS2\n1\n*END*\n\
    Pier\n0:00 :UTC\n0 feet\nS2 1 0\n\
    Gate\n0:00 :UTC\n0 knots^2\nS2 1 0\n\
    Pier\n0:00 :UTC\n0 meters\nS2 1 0\n";

const TABLE: &[u8] = b"name,reference,high_add,low_add,high_times,low_times,high_plus,low_plus\n\
    Dock,Pier,0:30,-0:10,1.1,0.9,0.1,0\n\
    \"Outer, east\",Gate,,,,,,\n\
    Lost,Nowhere,,,,,,\n\
    Pier,Dock,,,,,,\n";

/// The minutes by which a clock is ahead, and the listing of a highest water.
static HIGHEST: &[(i32, &str)] = &[
    (
        0,
        "Boston, Boston Harbor\nHighest 2025-04-29 04:33 UTC      12.22 feet\n",
    ),
    (
        -300,
        "Boston, Boston Harbor\nHighest 2025-04-28 23:33 -05:00      12.22 feet\n",
    ),
];

fn is_highest(alloc: Global, name: &Text, utc_offset: i32, expected: &str) -> bool {
    let (minute, level) = (29_098_353, 12_220_455);
    let zone = zone_of(utc_offset);
    let text = highest_text(alloc, name, Units::Feet, minute, level, &zone);
    is_text(text, expected)
}

fn is_about(alloc: Global, name: &Text, expected: &str) -> bool {
    let agreement = 98_943_212_089_632_423_480_202_598_400_000;
    match Text::from_str(alloc, "Pier") {
        Ok(reference) => {
            let text = about_text(alloc, name, &reference, Units::Feet, 30, agreement);
            is_text(text, expected)
        }
        Err(_) => false,
    }
}

const ABOUT: &str = "Boston, Boston Harbor\n\
    reference Pier\n\
    units feet\n\
    constituents 30\n\
    agreement 98943212089632423480202598400000\n";

fn check_boston(rt: &impl Abort, alloc: Global, name: &Text) {
    for &(utc_offset, expected) in HIGHEST {
        assert_holds(rt, is_highest(alloc, name, utc_offset, expected), expected);
    }
    assert_holds(rt, is_about(alloc, name, ABOUT), ABOUT);
}

/// A station with a name that has commas.
#[test]
fn stations_are_described(rt: HostRuntime) -> Result<(), AllocError> {
    let name = Text::from_str(rt.alloc(), "Boston, Boston Harbor")?;
    check_boston(&rt, rt.alloc(), &name);
    Ok(())
}

fn listed_with(alloc: Global, book: &Book, rows: &[u8]) -> Result<Bytes, AllocError>
    requires { length rows.now < 1000000 }
{
    let Ok(table) = read_offsets(alloc, rows) else {
        return Err(AllocError);
    };
    stations_text(alloc, book, &table)
}

/// Returns the list of the stations of a file and of a table of offsets, or an error if one of them can't
/// be read.
fn listed_stations(alloc: Global, file: &[u8], rows: &[u8]) -> Result<Bytes, AllocError> {
    if file.len() >= 1_000_000 || rows.len() >= 1_000_000 {
        return Err(AllocError);
    }
    let Ok(book) = read_book(alloc, file) else {
        return Err(AllocError);
    };
    listed_with(alloc, &book, rows)
}

#[test]
fn stations_are_listed(rt: HostRuntime) {
    let expected = "Ref feet Pier\n\
        Ref knots^2 Gate\n\
        Ref meters Pier\n\
        Sub feet Dock (Pier)\n\
        Sub knots^2 Outer, east (Gate)\n\
        Sub - Lost (Nowhere)\n\
        Sub - Pier (Dock)\n";
    assert!(rt; is_text(listed_stations(rt.alloc(), BOOK, TABLE), expected));
}
