//! Lines and calendars worked out by hand.

ghost use Rattle.std.specs.Prelude.{◌≡◌, [], ◌∷◌, ◌++◌, codes, length, map, negsuc, pos, replicate};
ghost use Rattle.event_text.specs.Worked.{high_tide, low_tide};
ghost use Rattle.harmonics_book.specs.declared.book.Units.{Units};
ghost use Rattle.ical_sheet.specs.Calendars.{calendar_of, nearest_moment, stamp_of, summary_line, uid_line};
ghost use Rattle.ical_sheet.specs.Escaping.{escaped};
ghost use Rattle.ical_sheet.specs.Folding.{folded, physical_lines, pieces_of, unfolded};
ghost use Rattle.ical_sheet.specs.Worked.{long_name, pier};

/// Proves examples of folding a content line (RFC 5545, section 3.1). `replicate n 97` is n letters
/// `a`.
///
/// - `empty`, `short`, `whole`: lines of 0, 12 and 75 bytes aren't split.
/// - `one_more`, `two_pieces`, `three_pieces`: lines of 76, 149 and 150 bytes are split after 75 bytes
///   and then after every 74.
/// - `letter`: after 74 bytes the letter é (two bytes) doesn't fit and goes to the next piece.
/// - `wide_sign`: after 72 bytes a character of four bytes doesn't fit; the second piece has it and one
///   `a`.
/// - `lines`: the physical lines of 150 bytes; those after the first have a space before their piece.
#[tactic(auto, unfolding(crate::specs::Folding::folded, crate::specs::Folding::greatest, crate::specs::Folding::cut_up, crate::specs::Folding::physical_lines))]
pub fn worked_folds()
    ensures empty { folded [] ≡ codes "\r\n" }
    ensures short { folded (codes "BEGIN:VEVENT") ≡ codes "BEGIN:VEVENT\r\n" }
    ensures whole { folded (replicate 75 97) ≡ replicate 75 97 ++ codes "\r\n" }
    ensures one_more { folded (replicate 76 97) ≡ replicate 75 97 ++ codes "\r\n a\r\n" }
    ensures two_pieces { map length (pieces_of (replicate 149 97)) ≡ 75 ∷ 74 ∷ [] }
    ensures three_pieces { map length (pieces_of (replicate 150 97)) ≡ 75 ∷ 74 ∷ 1 ∷ [] }
    ensures letter { folded (replicate 74 97 ++ 195 ∷ 169 ∷ []) ≡ replicate 74 97 ++ codes "\r\n " ++ 195 ∷ 169 ∷ codes "\r\n" }
    ensures wide_sign { map length (pieces_of (replicate 72 97 ++ 240 ∷ 159 ∷ 140 ∷ 138 ∷ 97 ∷ [])) ≡ 72 ∷ 5 ∷ [] }
    ensures lines { map length (physical_lines (folded (replicate 150 97))) ≡ 75 ∷ 75 ∷ 2 ∷ [] }
{}

/// Proves examples of unfolding (RFC 5545, section 3.1), which removes each CR LF before a space or a
/// tab, and this character.
///
/// - `space`, `tab`: a fold with a space and a fold with a tab are removed.
/// - `second_space`: of two spaces after CR LF only the first is removed.
/// - `no_blank`: CR LF before a letter, LF without CR, and CR without LF stay.
/// - `once`: a CR LF and a space that appear only when a fold is removed stay.
/// - `last`: CR LF at the end stays.
#[tactic(auto, unfolding(crate::specs::Folding::unfolded))]
pub fn worked_unfolds()
    ensures space { unfolded (codes "SUMMARY:Pie\r\n r\r\n") ≡ codes "SUMMARY:Pier\r\n" }
    ensures tab { unfolded (codes "a\r\n\tb\r\n") ≡ codes "ab\r\n" }
    ensures second_space { unfolded (codes "a\r\n  b") ≡ codes "a b" }
    ensures no_blank { unfolded (codes "a\r\nb\n c\r d") ≡ codes "a\r\nb\n c\r d" }
    ensures once { unfolded (codes "a\r\r\n \n b") ≡ codes "a\r\n b" }
    ensures last { unfolded (codes "a\r\n") ≡ codes "a\r\n" }
{}

/// Proves examples of escaping: a comma, a semicolon and a backslash get a backslash before them; a
/// quote and a colon don't.
pub fn worked_escapes()
    ensures all { escaped (codes "Pier, North; A\\B") ≡ codes "Pier\\, North\\; A\\\\B" }
    ensures others { escaped (codes "Ca\"d:iz") ≡ codes "Ca\"d:iz" }
{}

/// Proves examples of minutes as text in a calendar, and of the nearest minute of the years 1 to 9999.
/// `negsuc n` is -n - 1.
///
/// - `usual`: minute 15791400 is 2000-01-10T06:00Z.
/// - `before_zero`: minute -1 is one minute before 1970-01-01T00:00Z.
/// - `first`, `last`: the least and the greatest `i64` give the first and the last minute of these
///   years.
/// - `within`: a minute of these years is its own nearest one.
/// - `year_zero`: the last minute of the year 0 gives the minute after it, the first of the year 1.
#[tactic(auto, unfolding(crate::specs::Calendars::stamp_of, zone_time::specs::Dates::two_digits, zone_time::specs::Dates::date_of, zone_time::specs::Dates::date_from_year, zone_time::specs::Dates::date_from_month))]
pub fn worked_stamps()
    ensures usual { stamp_of (pos 15791400) ≡ codes "20000110T060000Z" }
    ensures before_zero { stamp_of (negsuc 0) ≡ codes "19691231T235900Z" }
    ensures first { stamp_of (nearest_moment (negsuc 9223372036854775807)) ≡ codes "00010101T000000Z" }
    ensures last { stamp_of (nearest_moment (pos 9223372036854775807)) ≡ codes "99991231T235900Z" }
    ensures within { nearest_moment (pos 15791220) ≡ pos 15791220 }
    ensures year_zero { nearest_moment (negsuc 1035593280) ≡ negsuc 1035593279 }
{}

/// Proves examples of calendars.
///
/// - `one`: the report of a pier at 2000-01-10T03:00Z with a low water at 06:00. The `UID` has the
///   event's minute, 1 for a low water, and the name `Pier` in hexadecimal digits.
/// - `none`: without events the text is empty.
/// - `long_uid`, `long_summary`: for a name of 80 bytes, the lengths of the pieces of these folded
///   lines.
/// - `escaped`: in the summary, special characters of the name have a backslash before them.
pub fn worked_calendars()
    ensures one { calendar_of pier (low_tide ∷ [])
        ≡ codes "BEGIN:VCALENDAR\r\nVERSION:2.0\r\nPRODID:-//Tide desk//Tide predictor//EN\r\nBEGIN:VEVENT\r\nUID:15791400-1-50696572@tide.invalid\r\nDTSTAMP:20000110T030000Z\r\nDTSTART:20000110T060000Z\r\nSUMMARY:Pier Low Tide -1.00 feet\r\nEND:VEVENT\r\nEND:VCALENDAR\r\n" }
    ensures none { calendar_of pier [] ≡ [] }
    ensures long_uid { map length (pieces_of (uid_line long_name low_tide)) ≡ 75 ∷ 74 ∷ 39 ∷ [] }
    ensures long_summary { map length (pieces_of (summary_line long_name Units.Feet low_tide)) ≡ 75 ∷ 33 ∷ [] }
    ensures escaped { summary_line (codes "Pier, North; A\\B") Units.Feet high_tide
        ≡ codes "SUMMARY:Pier\\, North\\; A\\\\B High Tide 1.00 feet" }
{}
