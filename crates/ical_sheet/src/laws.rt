//! Laws of folded lines and of the sheet's calendar.

ghost use Rattle.std.specs.Prelude.{◌≡◌, ℕ, ◌<◌, List, ◌∷◌, ◌++◌, All, codes, drop, length, take};
ghost use Rattle.std.specs.List.{flat_map};
ghost use Rattle.std.specs.Str.{IsUtf8};
ghost use Rattle.curve_law.specs.declared.event.Event.{Event};
ghost use Rattle.report_sheets.specs.declared.head.Head.{Head};
ghost use Rattle.report_sheets.specs.Sheets.{IsHead};
ghost use Rattle.hex.specs.Hex.{IsBytes};
ghost use Rattle.ical_sheet.specs.Calendars.{IsNarrow, calendar_of, content_lines, ical_sheet, uid_line};
ghost use Rattle.ical_sheet.specs.Folding.{
  AreShort,
  IsContentLine,
  IsLongestPrefix,
  folded,
  further_pieces,
  physical_lines,
  prefix_length,
  unfolded,
};

use crate::sheet::IcalPage;
use report_sheets::Layout;

/// Proves where a line of a calendar is split. `prefix_length` is the length of the longest prefix of
/// at most `most` bytes that splits no UTF-8 character; and each piece after a line's first is such a
/// prefix, of at most 74 bytes, of the rest of the line.
pub fn lines_are_cut_between_characters()
    ensures longest { (most : ℕ) (text : List ℕ) → IsUtf8 text → IsLongestPrefix most text (prefix_length most text) }
    ensures further { (text : List ℕ) → IsUtf8 text → 0 < length text →
        further_pieces text ≡ take (prefix_length 74 text) text ∷ further_pieces (drop (prefix_length 74 text) text) }
{}

/// Proves that folded content lines (RFC 5545, section 3.1) can be unfolded: each physical line has at
/// most 75 bytes without its CR LF, and unfolding returns the content lines, each with CR LF at its
/// end.
pub fn folded_lines_unfold()
    ensures line { (line : List ℕ) → IsContentLine line → unfolded (folded line) ≡ line ++ codes "\r\n" }
    ensures lines { (lines : List (List ℕ)) → All IsContentLine lines →
        unfolded (flat_map folded lines) ≡ flat_map (λ line. line ++ codes "\r\n") lines }
    ensures length_bound { (lines : List (List ℕ)) → All IsContentLine lines → AreShort (physical_lines (flat_map folded lines)) }
{}

/// Proves that a calendar's text can be unfolded (RFC 5545, section 3.1): each physical line has at
/// most 75 bytes without its CR LF, and unfolding returns the content lines, each with CR LF at its
/// end. The station's name is UTF-8 without control characters; minutes and levels are less than 2^64
/// in absolute value.
pub fn calendars_unfold()
    ensures lines { (head : Head) (events : List Event) → IsUtf8 head.name → IsHead head → All IsNarrow events →
        unfolded (calendar_of head events) ≡ flat_map (λ line. line ++ codes "\r\n") (content_lines head events) }
    ensures length_bound { (head : Head) (events : List Event) → IsUtf8 head.name → IsHead head → All IsNarrow events →
        AreShort (physical_lines (calendar_of head events)) }
{}

/// Proves that the code of the sheet (page of a report) `ical` writes the text that `ical_sheet`
/// defines.
pub fn calendars_are_sheets()
    ensures { ⟦<IcalPage as Layout>⟧.sheet ≡ ical_sheet }
{}

/// Proves that if two calendar entries have the same identifier (`UID`), their events have the same
/// minute and the same kind, and their stations have the same name. Minutes and levels are less than
/// 2^64 in absolute value.
pub fn identifiers_are_unique()
    ensures { (name other : List ℕ) (event later : Event) → IsBytes name → IsBytes other → IsNarrow event → IsNarrow later →
        uid_line name event ≡ uid_line other later → (name ≡ other) × (event.minute ≡ later.minute) × (event.kind ≡ later.kind) }
{}
