//! Minutes and command lines worked out by hand.

ghost use Rattle.std.specs.Prelude.{◌≡◌, [], ◌∷◌, codes, pos, Some, Ok, Err};
ghost use Rattle.question.specs.declared.command.Command.{Command};
ghost use Rattle.question.specs.declared.fault.AskFault.{AskFault};
ghost use Rattle.question.specs.Worked.{bare};
ghost use Rattle.report_sheets.specs.Listings.{first_sheet};
ghost use Rattle.report_sheets.specs.Pages.{missing_of};
ghost use Rattle.tide_fault.specs.declared.fault.Fault.{Fault};
ghost use Rattle.tide_desk.specs.Answers.{question_of_words, found_in, minute_for};
ghost use Rattle.tide_answer.specs.Answers.{text_alone};
ghost use Rattle.tide_desk.specs.Completeness.{HasAnswer, NothingFailed, folder_held};
ghost use Rattle.tide_desk.specs.Worked.{in_memory, pier, pier_words};

use harmonics_text::worked_files;

/// Proves examples of the minute that a command is answered for: the present minute for commands that
/// read the clock (`clock` and `report`), and 0 for others.
pub fn worked_minutes()
    ensures clock { minute_for Command.Clock (pos 7) ≡ pos 7 }
    ensures report { minute_for Command.Report (pos 7) ≡ pos 7 }
    ensures no_clock { minute_for Command.Heights (pos 7) ≡ pos 0 }
{}

/// Proves examples of checking the sheets (pages of a report) that a command line requests.
///
/// - `no_sheet`: the program has no sheets, so the fault names `first`.
/// - `second`: the only sheet is `first` (`first_sheet 10` shows at most 10 events). The fault names
///   `graph`, the first requested sheet that doesn't exist.
/// - `none_wanted`: a command line that requests no sheet passes.
/// - `words_first`: an invalid argument is reported before a missing sheet. `first,first` is invalid,
///   since a sheet may be requested only once; 2 is the argument's number, counted from 1 after the
///   command.
#[tactic(auto, unfolding(crate::specs::Answers::question_of_words, report_sheets::specs::Pages::missing_of, question::specs::Questions::question_of, question::specs::Questions::with_items, question::specs::Questions::with_item, question::specs::Forms::some_text, question::specs::Forms::sheets_of))]
pub fn worked_sheets()
    ensures no_sheet { found_in (codes "first" ∷ []) (missing_of [] (codes "first" ∷ [])) ≡ Err (Fault.NoSheet (codes "first")) }
    ensures second { let wanted = codes "first" ∷ codes "graph" ∷ codes "table" ∷ [] in
        found_in wanted (missing_of (first_sheet 10 ∷ []) wanted) ≡ Err (Fault.NoSheet (codes "graph")) }
    ensures none_wanted { question_of_words [] (codes "stations" ∷ codes "file=f" ∷ [])
        ≡ Ok (record (bare Command.Stations) { file = Some (codes "f") }) }
    ensures words_first { question_of_words [] (codes "report" ∷ codes "file=f" ∷ codes "sheets=first,first" ∷ [])
        ≡ Err (Fault.Ask (AskFault.BadValue 2)) }
{}

/// Proves that an example of a run in memory, which lists the stations of a small harmonics file, has an
/// answer, and that none of its files, clock and outputs failed.
pub fn worked_runs()
    ensures answer { HasAnswer [] (folder_held in_memory pier) (pos 15791220) pier_words (text_alone (codes "Ref feet Pier\n")) }
    ensures nothing_failed { NothingFailed in_memory [] pier_words pier pier }
{
    worked_files();
    worked_sheets();
}
