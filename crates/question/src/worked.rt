//! Computed examples of questions and of values.

ghost use Rattle.std.specs.Prelude.{◌≡◌, [], ◌∷◌, codes, pos, negsuc, Some, None, Ok, Err};
ghost use Rattle.question.specs.declared.command.Command.{Command};
ghost use Rattle.question.specs.declared.fault.AskFault.{AskFault};
ghost use Rattle.question.specs.declared.key.Key.{Key};
ghost use Rattle.question.specs.declared.layout.Layout.{Layout};
ghost use Rattle.question.specs.declared.question.ZoneWord.{ZoneWord};
ghost use Rattle.question.specs.Forms.{parse_number, mark_of, zone_of, sheets_of};
ghost use Rattle.question.specs.Questions.{question_of};
ghost use Rattle.question.specs.Words.{item_of, pairs_of};
ghost use Rattle.question.specs.Worked.{of_line, of_query, bare};
ghost use Rattle.question.specs.declared.origin.Origin.{Origin};

/// Proves computed examples of the questions that command lines and web queries make. A key that
/// isn't given has its default, or no value.
#[tactic(auto, unfolding(crate::specs::Questions::question_of, crate::specs::Questions::with_items, crate::specs::Questions::with_item, crate::specs::Forms::some_text, crate::specs::Forms::parse_number, crate::specs::Forms::mark_of, crate::specs::Layouts::layout_of, crate::specs::Forms::clock_of, crate::specs::Forms::offset_of, crate::specs::Forms::zone_of, crate::specs::Forms::sheets_of, zone_time::specs::Moments::moment_of, zone_time::specs::Moments::has_form, decimal_text::specs::Decimal::read_of, decimal_text::specs::Decimal::decimal_of, decimal_text::specs::Decimal::after_point, decimal_text::specs::Decimal::made_of, decimal_text::specs::Decimal::scaled_or_bad, decimal_text::specs::Decimal::scaled))]
pub fn worked_questions()
    ensures predict { of_line (codes "predict file=pier.txt station=Pier begin=2000-01-10T00:00Z end=2000-01-11T00:00Z")
        ≡ Ok (record (bare Command.Predict) {
          file = Some (codes "pier.txt");
          station = Some (codes "Pier");
          begin = Some (pos 15791040);
          end = Some (pos 15792480);
        }) }
    ensures calendar { of_line
        (codes "calendar mark=-.5 zone=-00:30 end=1970-01-01T00:00Z begin=1969-12-31T23:59Z station== file=a=b offsets=o")
        ≡ Ok (record (bare Command.Calendar) {
          file = Some (codes "a=b");
          offsets = Some (codes "o");
          station = Some (codes "=");
          begin = Some (negsuc 0);
          end = Some (pos 0);
          mark = Some (negsuc 499999);
          zone = ZoneWord.Fixed (negsuc 29);
        }) }
    ensures check { of_line (codes "check file=f certificate=c zone=@rome")
        ≡ Ok (record (bare Command.Check) {
          file = Some (codes "f");
          certificate = Some (codes "c");
          zone = ZoneWord.Named (codes "rome");
        }) }
    ensures stations { of_line (codes "stations file=f") ≡ Ok (record (bare Command.Stations) { file = Some (codes "f") }) }
    ensures sample { of_line (codes "sample seed=18446744073709551615")
        ≡ Ok (record (bare Command.Sample) { seed = Some 18446744073709551615 }) }
    ensures serve { of_line (codes "serve file=f port=65535") ≡ Ok (record (bare Command.Serve) { file = Some (codes "f"); port = 65535 }) }
    ensures about { of_line (codes "about station=s file=f")
        ≡ Ok (record (bare Command.About) { file = Some (codes "f"); station = Some (codes "s") }) }
    ensures heights_asked { of_query (codes "heights") (codes "station=Pier" ∷ codes "step=044640" ∷ codes "layout=csv"
        ∷ codes "begin=2000-01-10T00:00Z" ∷ codes "end=2000-01-10T00:00Z" ∷ [])
        ≡ Ok (record (bare Command.Heights) {
          station = Some (codes "Pier");
          begin = Some (pos 15791040);
          end = Some (pos 15791040);
          step = pos 44640;
          layout = Layout.Csv;
        }) }
    ensures check_asked { of_query (codes "check") [] ≡ Ok (bare Command.Check) }
{}

/// Proves computed examples of command lines that make no question, with the first fault of each.
/// The number in a fault is that of the item (an argument after the command), counted from 1.
/// Commands are in small letters, a minute needs a time of day, and a fault of an item comes before
/// a missing key.
#[tactic(auto, unfolding(crate::specs::Questions::question_of, crate::specs::Questions::with_items, crate::specs::Questions::with_item, crate::specs::Forms::some_text, crate::specs::Forms::parse_number, crate::specs::Forms::mark_of, crate::specs::Layouts::layout_of, crate::specs::Forms::clock_of, crate::specs::Forms::offset_of, crate::specs::Forms::zone_of, crate::specs::Forms::sheets_of, zone_time::specs::Moments::moment_of, zone_time::specs::Moments::has_form, jiff_core::specs::Calendar::days_from_civil, jiff_core::specs::Calendar::day_count, jiff_core::specs::Calendar::days_of_years, jiff_core::specs::Calendar::days_of_months, decimal_text::specs::Decimal::read_of, decimal_text::specs::Decimal::decimal_of, decimal_text::specs::Decimal::after_point, decimal_text::specs::Decimal::made_of, decimal_text::specs::Decimal::scaled_or_bad, decimal_text::specs::Decimal::scaled))]
pub fn worked_faults()
    ensures no_words { question_of (pairs_of []) ≡ Err AskFault.NoCommand }
    ensures capital { of_line (codes "Predict file=f") ≡ Err AskFault.UnknownCommand }
    ensures date_alone { of_line (codes "predict file=pier.txt station=Pier begin=2000-01-10 end=2000-01-11T00:00Z")
        ≡ Err (AskFault.BadValue 3) }
    ensures not_a_pair { of_line (codes "predict x") ≡ Err (AskFault.NotAPair 1) }
    ensures other_commands_key { of_line (codes "stations file=f station=s") ≡ Err (AskFault.UnknownKey 2) }
    ensures repeated_before_bad { of_line (codes "predict zone=UTC zone=utc") ≡ Err (AskFault.RepeatedKey 2) }
    ensures first_item_first { of_line (codes "predict file= seed=1 x") ≡ Err (AskFault.BadValue 1) }
    ensures item_before_missing { of_line (codes "predict file=f step=60") ≡ Err (AskFault.UnknownKey 2) }
    ensures first_missing { of_line (codes "predict end=2000-01-11T00:00Z file=f") ≡ Err (AskFault.MissingKey Key.Station) }
    ensures last_missing { of_line (codes "report file=f station=s begin=2000-01-10T00:00Z end=2000-01-11T00:00Z")
        ≡ Err (AskFault.MissingKey Key.Sheets) }
{}

/// Proves computed examples of web queries that make no question, with the first fault of each; a
/// number counts the pairs of the query from 1. A query can't name files: not by a key, nor as a
/// zone file (`@rome`), and the command `serve` has no path.
#[tactic(auto, unfolding(crate::specs::Questions::question_of, crate::specs::Questions::with_items, crate::specs::Questions::with_item, crate::specs::Forms::some_text, crate::specs::Forms::parse_number, crate::specs::Forms::mark_of, crate::specs::Layouts::layout_of, crate::specs::Forms::clock_of, crate::specs::Forms::offset_of, crate::specs::Forms::zone_of, crate::specs::Forms::sheets_of, zone_time::specs::Moments::moment_of, zone_time::specs::Moments::has_form, jiff_core::specs::Calendar::days_from_civil, jiff_core::specs::Calendar::day_count, jiff_core::specs::Calendar::days_of_years, jiff_core::specs::Calendar::days_of_months, decimal_text::specs::Decimal::read_of, decimal_text::specs::Decimal::decimal_of, decimal_text::specs::Decimal::after_point, decimal_text::specs::Decimal::made_of, decimal_text::specs::Decimal::scaled_or_bad, decimal_text::specs::Decimal::scaled))]
pub fn worked_query_faults()
    ensures no_path { of_query (codes "serve") [] ≡ Err AskFault.UnknownCommand }
    ensures file { of_query (codes "predict") (codes "file=pier.txt" ∷ []) ≡ Err (AskFault.UnknownKey 1) }
    ensures zone_file { of_query (codes "predict") (codes "zone=@rome" ∷ []) ≡ Err (AskFault.BadValue 1) }
    ensures missing { of_query (codes "clock") (codes "zone=UTC" ∷ []) ≡ Err (AskFault.MissingKey Key.Station) }
{}

/// Proves computed examples of texts that are values of keys, and of texts that aren't, near the
/// ends of the keys' ranges: numbers (a seed and a step), marks in millionths of the unit, zones,
/// with offsets in minutes, and sheets. `negsuc n` is -(n + 1).
#[tactic(auto, unfolding(crate::specs::Questions::question_of, crate::specs::Questions::with_items, crate::specs::Questions::with_item, crate::specs::Forms::some_text, crate::specs::Forms::parse_number, crate::specs::Forms::mark_of, crate::specs::Layouts::layout_of, crate::specs::Forms::clock_of, crate::specs::Forms::offset_of, crate::specs::Forms::zone_of, crate::specs::Forms::sheets_of, decimal_text::specs::Decimal::read_of, decimal_text::specs::Decimal::decimal_of, decimal_text::specs::Decimal::after_point, decimal_text::specs::Decimal::made_of, decimal_text::specs::Decimal::scaled_or_bad, decimal_text::specs::Decimal::scaled))]
pub fn worked_values()
    ensures seed_too_large { parse_number 20 0 18446744073709551615 (codes "18446744073709551616") ≡ None }
    ensures too_many_digits { parse_number 6 1 44640 (codes "0000060") ≡ None }
    ensures greatest_mark { mark_of (codes "+10000") ≡ Some (pos 10000000000) }
    ensures mark_too_large { mark_of (codes "-10000.000001") ≡ None }
    ensures mark_too_fine { mark_of (codes "0.1234567") ≡ None }
    ensures no_offset { zone_of Origin.Query (codes "-00:00") ≡ Some (ZoneWord.Fixed (pos 0)) }
    ensures greatest_offset { zone_of Origin.Line (codes "-15:59") ≡ Some (ZoneWord.Fixed (negsuc 958)) }
    ensures too_far { zone_of Origin.Line (codes "+16:00") ≡ None }
    ensures sixty_minutes { zone_of Origin.Line (codes "+15:60") ≡ None }
    ensures no_sign { zone_of Origin.Line (codes "05:00") ≡ None }
    ensures nameless { zone_of Origin.Line (codes "@") ≡ None }
    ensures sheets { sheets_of (codes "first,tally") ≡ Some (codes "first" ∷ codes "tally" ∷ []) }
    ensures longest_sheet { sheets_of (codes "abcdefghijklmnop") ≡ Some (codes "abcdefghijklmnop" ∷ []) }
    ensures longer_sheet { sheets_of (codes "abcdefghijklmnopq") ≡ None }
    ensures same_sheet { sheets_of (codes "a,b,a") ≡ None }
    ensures no_sheet { sheets_of (codes "a,,b") ≡ None }
{}

/// Proves computed examples of arguments that are split into a key and a value at the first `=`.
pub fn worked_words()
    ensures first_sign { item_of (codes "file=a=b") ≡ record { key = codes "file"; value = Some (codes "a=b") } }
    ensures no_value { item_of (codes "file=") ≡ record { key = codes "file"; value = Some [] } }
    ensures no_sign { item_of (codes "file") ≡ record { key = codes "file"; value = None } }
{}
