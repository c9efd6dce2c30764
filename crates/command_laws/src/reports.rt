//! The law of `report`.

ghost use Rattle.std.specs.Prelude.{◌≡◌, [], ◌∷◌, codes, false, Ok};
ghost use Rattle.report_sheets.specs.Listings.{first_sheet};
ghost use Rattle.tide_answer.specs.Answers.{text_alone};
ghost use Rattle.command_laws.specs.Reports.{ReportsAreComplete};
ghost use Rattle.command_laws.specs.Worked.{pier_answer};

/// Proves that each page of a report shows every event that `predict` lists for the same station, span,
/// mark and files, or, if there are more events than its sheet's limit, the first of them, as many as
/// the limit. Also proves that each requested sheet has a page.
pub fn reports_are_complete()
    ensures { ReportsAreComplete }
{}

/// Proves an example: the events of two minutes, which `predict` lists, on a page with a limit of ten
/// events, and on a page with a limit of one, which is full.
pub fn worked_reports()
    ensures all { pier_answer (first_sheet 10 ∷ [])
        (codes "report file=p station=Pier begin=2000-01-10T11:59Z end=2000-01-10T12:01Z mark=0.99998 sheets=first")
        ≡ Ok (text_alone (codes
        "Pier\n2000-01-10 11:59 UTC       1.00 feet  High Tide\n2000-01-10 11:59 UTC       1.00 feet  Mark Rising\n2000-01-10 12:00 UTC       1.00 feet  Mark Falling\n")) }
    ensures full { pier_answer (first_sheet 1 ∷ [])
        (codes "report file=p station=Pier begin=2000-01-10T11:59Z end=2000-01-10T12:01Z mark=0.99998 sheets=first")
        ≡ Ok (text_alone (codes "Pier\n2000-01-10 11:59 UTC       1.00 feet  High Tide\n")) }
    ensures listed { pier_answer [] (codes "predict file=p station=Pier begin=2000-01-10T11:59Z end=2000-01-10T12:01Z mark=0.99998")
        ≡ Ok (record {
          text = codes
              "Pier\n2000-01-10 11:59 UTC       1.00 feet  High Tide\n2000-01-10 11:59 UTC       1.00 feet  Mark Rising\n2000-01-10 12:00 UTC       1.00 feet  Mark Falling\n";
          rejected = false;
          cells = 4;
        }) }
{}
