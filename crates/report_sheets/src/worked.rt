//! Reports worked out by hand.

ghost use Rattle.std.specs.Prelude.{◌≡◌, [], ◌∷◌, Some, None, codes};
ghost use Rattle.report_sheets.specs.Listings.{lines_of};
ghost use Rattle.report_sheets.specs.Pages.{missing_of, pages_of};
ghost use Rattle.report_sheets.specs.Ranges.{ranges_of};
ghost use Rattle.report_sheets.specs.Tallies.{tally_of};
ghost use Rattle.report_sheets.specs.Worked.{ebbs, gate, pier, sheets_with, tides};

/// Proves examples of tallies (the number of events with each name): a pier with two high and two low
/// waters; a current with three events; and a pier without events.
pub fn worked_tallies()
    ensures tides { tally_of pier tides ≡ codes "Pier\n2 High Tide\n2 Low Tide\n" }
    ensures currents { tally_of gate ebbs ≡ codes "Gate\n1 Max Ebb\n1 Min Ebb\n1 Mark Falling\n" }
    ensures none { tally_of pier [] ≡ codes "Pier\n" }
{}

/// Proves examples of the sheet `range` (the highest high water and the lowest low water).
///
/// - `tides`: two high waters are equal, and so are two low waters; the first of each counts.
/// - `currents`: the events are a high at -0.50 knots, a fall to the mark -3.00 knots and a low at
///   -2.00 knots. The mark isn't a low, so the lowest is -2.00.
/// - `none`: without events there is only the station's name.
pub fn worked_ranges()
    ensures tides { ranges_of pier tides ≡ codes "Pier\nHighest 1.00 feet 2000-01-10T11:59Z\nLowest -1.00 feet 2000-01-10T06:00Z\n" }
    ensures currents { ranges_of gate ebbs ≡ codes "Gate\nHighest -0.50 knots 2000-01-10T00:00Z\nLowest -2.00 knots 2000-01-10T12:00Z\n" }
    ensures none { ranges_of pier [] ≡ codes "Pier\n" }
{}

/// Proves examples of a report over the sheets `tally`, `range` and `first`, in this order, for a day
/// with four tides.
///
/// - `first`: `first` and `tally` are requested; the page of `tally` is first, as in the list of
///   sheets. The sheet `first` accepts at most 2 events, so it lists two of four.
/// - `all`: the layout of `first` without a limit lists all four.
/// - `none_wanted`: if no sheet is requested, the text is empty.
pub fn worked_pages()
    ensures first { pages_of (sheets_with 2) (codes "first" ∷ codes "tally" ∷ []) pier tides
        ≡ codes "Pier\n2 High Tide\n2 Low Tide\nPier\n2000-01-10 06:00 UTC      -1.00 feet  Low Tide\n2000-01-10 11:59 UTC       1.00 feet  High Tide\n" }
    ensures all { lines_of pier tides
        ≡ codes "Pier\n2000-01-10 06:00 UTC      -1.00 feet  Low Tide\n2000-01-10 11:59 UTC       1.00 feet  High Tide\n2000-01-10 18:00 UTC      -1.00 feet  Low Tide\n2000-01-10 23:59 UTC       1.00 feet  High Tide\n" }
    ensures none_wanted { pages_of (sheets_with 2) [] pier tides ≡ [] }
{}

/// Proves examples of finding the first requested word without a sheet, over the sheets `tally`,
/// `range` and `first`.
///
/// - `second`: of `tally`, `graph` and `table` the word at index 1, `graph`, is the first without a
///   sheet.
/// - `none`: each of the three words has a sheet.
/// - `no_sheet`: if there are no sheets, it is the word at index 0.
#[tactic(auto, unfolding(crate::specs::Pages::missing_of))]
pub fn worked_words()
    ensures second { missing_of (sheets_with 10) (codes "tally" ∷ codes "graph" ∷ codes "table" ∷ []) ≡ Some 1 }
    ensures none { missing_of (sheets_with 10) (codes "first" ∷ codes "range" ∷ codes "tally" ∷ []) ≡ None }
    ensures no_sheet { missing_of [] (codes "first" ∷ []) ≡ Some 0 }
{}
