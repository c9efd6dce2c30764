//! Laws of pages and of the three sheets.

ghost use Rattle.std.specs.Prelude.{◌≡◌, ◌≤◌, List, length, take};
ghost use Rattle.curve_law.specs.declared.event.Event.{Event};
ghost use Rattle.report_sheets.specs.declared.head.Head.{Head};
ghost use Rattle.report_sheets.specs.Listings.{first_sheet};
ghost use Rattle.report_sheets.specs.Pages.{page_of};
ghost use Rattle.report_sheets.specs.Ranges.{range_sheet};
ghost use Rattle.report_sheets.specs.Sheets.{SheetSpec};
ghost use Rattle.report_sheets.specs.Tallies.{tally_sheet};

use crate::first_lines::FirstLinesPage;
use crate::layout::Layout;
use crate::ranges::RangesPage;
use crate::tally::TallyPage;

/// Proves that a page of a report shows all events if there are at most as many as the sheet's limit,
/// and otherwise exactly the first `limit` events.
#[tactic(auto, unfolding(crate::specs::Pages::page_of))]
pub fn pages_show_the_first_events()
    ensures all { (sheet : SheetSpec) (head : Head) (events : List Event)
        → length events ≤ sheet.limit → page_of head events sheet ≡ sheet.layout head events }
    ensures first { (sheet : SheetSpec) (head : Head) (events : List Event)
        → sheet.limit ≤ length events → (page_of head events sheet ≡ sheet.layout head (take sheet.limit events))
        × (length (take sheet.limit events) ≡ sheet.limit) }
{}

/// Proves that the code of the sheets (pages of a report) `tally`, `range` and `first` writes the texts
/// that `tally_sheet`, `range_sheet` and `first_sheet` define.
pub fn sheets_write_their_layouts()
    ensures tally { ⟦<TallyPage as Layout>⟧.sheet ≡ tally_sheet }
    ensures range { ⟦<RangesPage as Layout>⟧.sheet ≡ range_sheet }
    ensures first { ⟦<FirstLinesPage as Layout>⟧.sheet ≡ first_sheet }
{}
