//! The examples of doc comments, in the same words.

use cert_checker::check_track;
use curve_law::samples::Line;
use curve_law::{Cell, Cells, Kind, Verdict};
use fixed_sine::{DEGREE, icos, isin, reduce};
use harmonics_text::read_book;
use interval_search::{Found, Search, search};
use station_curve::StationCurve;
use std::test::Fail;

#[test]
fn sines(rt: HostRuntime) {
    assert_eq!(rt; isin(30 * DEGREE), 500_000_000);
    assert_eq!(rt; icos(reduce(-180 * i128::from(DEGREE))), -1_000_000_000);
}

#[test]
fn station_curves(rt: HostRuntime) {
    let text =
        b"1\nS2 30\n1999\n1\nS2\n0\n*END*\n1\nS2\n1\n*END*\nPier\n0:00 :UTC\n0 feet\nS2 1 0\n";
    let book = read_book(rt.alloc(), text).expect(&rt, "a book");
    assert_eq!(rt; book.stations.as_slice().len(), 1);
    let curve = StationCurve::new(rt.alloc(), &book, 0).expect(&rt, "a curve");
    let (first, last) = (curve.first(), curve.last());
    assert!(rt; first < last);
    assert_eq!(rt; curve.millionths(first), 1_000_000);
}

#[test]
fn cells_of_a_span(rt: HostRuntime) -> Result<(), Fail> {
    let mut curve = Line::new(-2, false, 1);
    let cells = search(rt.alloc(), &mut curve, 0, 8)?;
    assert_eq!(rt; cells.as_slice().len(), 4);
    assert_eq!(rt; cells.as_slice()[1], Cell::Turn(Kind::Low, 2));
    Ok(())
}

#[test]
fn cells_in_steps(rt: HostRuntime) {
    let mut search = Search::new(Line::new(-2, false, 1), 0, 8);
    let (quiet, event) = (Cell::Quiet(2), Cell::Turn(Kind::Low, 2));
    assert_eq!(rt; search.next(), Some(Found { at: 0, cell: quiet }));
    assert_eq!(rt; search.next(), Some(Found { at: 2, cell: event }));
}

#[test]
fn verdicts(rt: HostRuntime) -> Result<(), Fail> {
    let mut items = Vec::new(rt.alloc());
    items.push(Cell::Quiet(8))?;
    let cells = Cells::from_vec(items);
    let mut line = Line::new(10, false, 1);
    assert_eq!(rt; check_track(&mut line, &cells, 0, 8), Verdict::Accepted);
    let mut line = Line::new(-2, false, 1);
    let verdict = check_track(&mut line, &cells, 0, 8);
    assert_eq!(rt; verdict, Verdict::NotQuiet { cell: 1 });
    Ok(())
}
