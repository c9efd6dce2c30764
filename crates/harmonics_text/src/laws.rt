//! Theorems about the reading of a harmonics file, and examples of its definitions.

ghost use Rattle.std.specs.Prelude.{
  ◌≡◌,
  ◌≤◌,
  ℕ,
  List,
  ◌∷◌,
  ◌++◌,
  [],
  length,
  codes,
  map,
  take,
  replicate,
  pos,
  negsuc,
  Ok,
  Err,
  Some,
  None,
};
ghost use Rattle.harmonics_text.specs.Rules.{count_of, station_name_of, local_time_of, pair_of};
ghost use Rattle.harmonics_text.specs.Lines.{cut, numbered, kept, tokens};
ghost use Rattle.harmonics_text.specs.Reading.{At, book_of};
ghost use Rattle.harmonics_text.specs.Pieces.{ended_lines, pending_length, fault_so_far};
ghost use Rattle.harmonics_book.specs.Worked.{pier_book};
ghost use Rattle.harmonics_text.specs.Worked.{pier_lines, file_of, pier_with, changes};

use crate::fault::Why;

/// Proves examples of the rules for lines: how a file is cut into lines and a line into tokens,
/// which lines are skipped, and which value, or which fault, some lines have. An LF ends a line,
/// and the bytes after the last LF are a line too (`lines`). `negsuc n` is -(n + 1).
#[tactic(auto, unfolding(crate::specs::Lines::cut, crate::specs::Lines::numbered, crate::specs::Lines::is_kept, crate::specs::Lines::kept, crate::specs::Lines::tokens, crate::specs::Lines::trimmed, crate::specs::Rules::in_scale, crate::specs::Rules::parse_number, crate::specs::Rules::whole_of, crate::specs::Rules::from_to, crate::specs::Rules::count_of, crate::specs::Rules::first_year_of, crate::specs::Rules::name_of, crate::specs::Rules::new_name_of, crate::specs::Rules::constituent_from, crate::specs::Rules::constituent_of, crate::specs::Rules::named, crate::specs::Rules::end_of, crate::specs::Rules::same_count_of, crate::specs::Rules::values_from, crate::specs::Rules::station_name_of, crate::specs::Rules::two_digits_of, crate::specs::Rules::minutes_of, crate::specs::Rules::clock_of, crate::specs::Rules::meridian_of, crate::specs::Rules::zone_of, crate::specs::Rules::local_time_from, crate::specs::Rules::local_time_of, crate::specs::Rules::units_of, crate::specs::Rules::datum_of, crate::specs::Rules::pair_from, crate::specs::Rules::pair_of, crate::specs::Reading::constituents, crate::specs::Reading::values, crate::specs::Reading::table, crate::specs::Reading::pairs, crate::specs::Reading::station, crate::specs::Reading::most_stations, crate::specs::Reading::stations, crate::specs::Reading::book, crate::specs::Reading::book_of, crate::specs::Pieces::ended_lines, crate::specs::Pieces::pending_line, crate::specs::Pieces::pending_length, crate::specs::Pieces::judged_lines, crate::specs::Pieces::fault_so_far, decimal_text::specs::Decimal::after_point, decimal_text::specs::Decimal::made_of, decimal_text::specs::Decimal::decimal_of, decimal_text::specs::Decimal::scaled, decimal_text::specs::Decimal::scaled_or_bad, decimal_text::specs::Decimal::read_of, decimal_text::specs::Digits::digits_of))]
pub fn worked_lines()
    ensures lines { cut (codes "a\n\nb") ≡ codes "a" ∷ [] ∷ codes "b" ∷ [] }
    // A comment and a blank line are skipped; a line with a space before `#`, or with two CRs,
    // isn't.
    ensures kept { kept (numbered 1 (codes "#a" ∷ codes " #a" ∷ codes " \t\r" ∷ codes "\r\r" ∷ []))
        ≡ record { number = 2; text = codes " #a" } ∷ record { number = 4; text = codes "\r\r" } ∷ [] }
    // Spaces and tabs separate tokens.
    ensures tokens { tokens (codes " S2 \t30 ") ≡ codes "S2" ∷ codes "30" ∷ [] }
    // `12` with a space after it is the count 12.
    ensures count { count_of (codes "12 ") ≡ Ok 12 }
    // Two numbers on the line are a bad count.
    ensures two_counts { count_of (codes "1 2") ≡ Err Why.BadCount }
    // A count of 0 is bad.
    ensures no_count { count_of (codes "0") ≡ Err Why.BadCount }
    // A station's name loses the spaces and tabs at both ends; each byte from 128 on becomes two
    // bytes of UTF-8.
    ensures latin { station_name_of (codes " \t~" ++ 128 ∷ 159 ∷ 255 ∷ codes " ") ≡ Ok (126 ∷ 194 ∷ 128 ∷ 194 ∷ 159 ∷ 195 ∷ 191 ∷ []) }
    // The byte 127 can't be in a name.
    ensures no_name { station_name_of (127 ∷ []) ≡ Err Why.BadName }
    // A meridian of 5 hours 30 minutes west is -330 minutes; the colon before the zone is left out.
    ensures west { local_time_of (codes "-5:30 :America/Caracas") ≡ Ok (record { meridian = negsuc 329; zone = codes "America/Caracas" }) }
    // `-0:30` is -30 minutes; of two colons, one is left out.
    ensures half_hour_west { local_time_of (codes "-0:30 ::") ≡ Ok (record { meridian = negsuc 29; zone = codes ":" }) }
    // The minute needs two digits.
    ensures no_minute { local_time_of (codes "0:5") ≡ Err Why.BadMeridian }
    // The line of an absent constituent gives 0 for both numbers.
    ensures absent { pair_of (codes "S2") (codes "x 1 2") ≡ Ok (pos 0, pos 0) }
{}

/// Proves the book in a small file of 16 lines (`pier`), and the fault of each changed file: with
/// one line changed (`changed`), without its last line (`cut_short`), without any byte (`empty`),
/// or with a speed of too many decimal places after a comment and a blank line (`too_fine`).
#[tactic(auto, unfolding(crate::specs::Lines::cut, crate::specs::Lines::numbered, crate::specs::Lines::is_kept, crate::specs::Lines::kept, crate::specs::Lines::tokens, crate::specs::Lines::trimmed, crate::specs::Rules::in_scale, crate::specs::Rules::parse_number, crate::specs::Rules::whole_of, crate::specs::Rules::from_to, crate::specs::Rules::count_of, crate::specs::Rules::first_year_of, crate::specs::Rules::name_of, crate::specs::Rules::new_name_of, crate::specs::Rules::constituent_from, crate::specs::Rules::constituent_of, crate::specs::Rules::named, crate::specs::Rules::end_of, crate::specs::Rules::same_count_of, crate::specs::Rules::values_from, crate::specs::Rules::station_name_of, crate::specs::Rules::two_digits_of, crate::specs::Rules::minutes_of, crate::specs::Rules::clock_of, crate::specs::Rules::meridian_of, crate::specs::Rules::zone_of, crate::specs::Rules::local_time_from, crate::specs::Rules::local_time_of, crate::specs::Rules::units_of, crate::specs::Rules::datum_of, crate::specs::Rules::pair_from, crate::specs::Rules::pair_of, crate::specs::Reading::constituents, crate::specs::Reading::values, crate::specs::Reading::table, crate::specs::Reading::pairs, crate::specs::Reading::station, crate::specs::Reading::most_stations, crate::specs::Reading::stations, crate::specs::Reading::book, crate::specs::Reading::book_of, crate::specs::Pieces::ended_lines, crate::specs::Pieces::pending_line, crate::specs::Pieces::pending_length, crate::specs::Pieces::judged_lines, crate::specs::Pieces::fault_so_far, decimal_text::specs::Decimal::after_point, decimal_text::specs::Decimal::made_of, decimal_text::specs::Decimal::decimal_of, decimal_text::specs::Decimal::scaled, decimal_text::specs::Decimal::scaled_or_bad, decimal_text::specs::Decimal::read_of, decimal_text::specs::Digits::digits_of))]
pub fn worked_files()
    ensures pier { book_of (file_of pier_lines) ≡ Ok pier_book }
    // The small file without its last line, the sixteenth, ends too early at line 16.
    ensures cut_short { book_of (file_of (take 15 pier_lines)) ≡ Err (record { line = 16; why = Why.CutShort }) }
    // Each copy of the small file with one line changed has the fault that is listed with the
    // change.
    ensures changed { map (λ c. book_of (pier_with c)) changes ≡ map (λ c. Err (record { line = c.at; why = c.why })) changes }
    // A file without a byte ends too early at line 1.
    ensures empty { book_of [] ≡ Err (record { line = 1; why = Why.CutShort }) }
    // Comments and blank lines are counted: a speed with an eighth decimal place other than 0 is
    // the fault of line 4.
    ensures too_fine { book_of (codes "# a comment\n1\n\nS2 30.00000001\r\n") ≡ Err (record { line = 4; why = Why.TooFine }) }
{}

/// Proves examples of the fault that the first bytes of a file determine, or `None`
/// (`fault_so_far`), and of the number of bytes after the last LF, or 0 in a comment
/// (`pending_length`). A comment and a part of the next line determine no fault (`begun`).
#[tactic(auto, unfolding(crate::specs::Lines::cut, crate::specs::Lines::numbered, crate::specs::Lines::is_kept, crate::specs::Lines::kept, crate::specs::Lines::tokens, crate::specs::Lines::trimmed, crate::specs::Rules::in_scale, crate::specs::Rules::parse_number, crate::specs::Rules::whole_of, crate::specs::Rules::from_to, crate::specs::Rules::count_of, crate::specs::Rules::first_year_of, crate::specs::Rules::name_of, crate::specs::Rules::new_name_of, crate::specs::Rules::constituent_from, crate::specs::Rules::constituent_of, crate::specs::Rules::named, crate::specs::Rules::end_of, crate::specs::Rules::same_count_of, crate::specs::Rules::values_from, crate::specs::Rules::station_name_of, crate::specs::Rules::two_digits_of, crate::specs::Rules::minutes_of, crate::specs::Rules::clock_of, crate::specs::Rules::meridian_of, crate::specs::Rules::zone_of, crate::specs::Rules::local_time_from, crate::specs::Rules::local_time_of, crate::specs::Rules::units_of, crate::specs::Rules::datum_of, crate::specs::Rules::pair_from, crate::specs::Rules::pair_of, crate::specs::Reading::constituents, crate::specs::Reading::values, crate::specs::Reading::table, crate::specs::Reading::pairs, crate::specs::Reading::station, crate::specs::Reading::most_stations, crate::specs::Reading::stations, crate::specs::Reading::book, crate::specs::Reading::book_of, crate::specs::Pieces::ended_lines, crate::specs::Pieces::pending_line, crate::specs::Pieces::pending_length, crate::specs::Pieces::judged_lines, crate::specs::Pieces::fault_so_far, decimal_text::specs::Decimal::after_point, decimal_text::specs::Decimal::made_of, decimal_text::specs::Decimal::decimal_of, decimal_text::specs::Decimal::scaled, decimal_text::specs::Decimal::scaled_or_bad, decimal_text::specs::Decimal::read_of, decimal_text::specs::Digits::digits_of))]
pub fn worked_pieces()
    ensures begun { fault_so_far (codes "# Pier test\n1") ≡ None }
    // One byte follows the last LF.
    ensures one_byte { pending_length (codes "# Pier test\n1") ≡ 1 }
    // A line with a bad number, and its CR, is no fault before its LF.
    ensures not_ended { fault_so_far (codes "#\n1\nS2 30,0\r") ≡ None }
    // A line with a bad number, the third, is a fault once its LF was read.
    ensures bad { fault_so_far (codes "#\n1\nS2 30,0\r\n1999") ≡ Some (record { line = 3; why = Why.BadNumber }) }
    // A CR counts as a byte of a line that has not ended.
    ensures with_its_cr { pending_length (codes "1\r") ≡ 2 }
    // The bytes after the last LF don't count if they are a comment.
    ensures in_comment { pending_length (codes "1\n# 2") ≡ 0 }
    // 4,096 spaces without an LF are no fault.
    ensures long { fault_so_far (replicate 4096 32) ≡ None }
    // 4,097 spaces are a fault, before the LF is read.
    ensures too_long { fault_so_far (replicate 4097 32) ≡ Some (record { line = 1; why = Why.LineTooLong }) }
    // A comment of 4,098 bytes is no fault.
    ensures long_comment { fault_so_far (35 ∷ replicate 4097 32) ≡ None }
    // The small file has no fault.
    ensures complete { fault_so_far (file_of pier_lines) ≡ None }
{}

/// Proves that a fault found in the first bytes of a file is the fault of the file, whatever bytes
/// follow, and that a fault of the file is found as soon as the LF of its line was read.
pub fn first_faults()
    ensures stand { (bytes more : List ℕ) (fault : At) → fault_so_far bytes ≡ Some fault → book_of (bytes ++ more) ≡ Err fault }
    ensures reported { (bytes : List ℕ) (fault : At) → book_of bytes ≡ Err fault
        → fault.line ≤ length (ended_lines bytes) → fault_so_far bytes ≡ Some fault }
{}
