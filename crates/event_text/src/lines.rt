//! Writing the lines of a listing: of an event, or of a level.

ghost use Rattle.std.specs.Prelude.{◌≡◌, ◌≤◌, [], IsTrue};
ghost use Rattle.arrayvec.specs.ArrayString.{array_string_len};
ghost use Rattle.event_text.specs.Words.{has_word};
ghost use Rattle.zone_time.specs.Locals.{IsLocal};
ghost use Rattle.event_text.specs.Lines.{height_line_of, event_line_of};

use crate::level::push_level;
use crate::naming::word;
use crate::unit::unit_text;
use arrayvec::ArrayString;
use curve_law::Event;
use harmonics_book::Units;
use zone_time::{Local, write_local};

/// Writes the line of `event` at the local time `local`, such as
/// `2000-01-10 06:00 UTC      -1.00 feet  Low Tide`, with its LF, to `out`, which must be empty.
/// The event's level is in millionths of the unit. The local year is from 0 to 9999, and the offset
/// from universal time, if the label isn't UTC, from -1560 to 1560 minutes. The event's kind must
/// have a name in the unit: none has one in knots squared, and slack water has one only in knots.
/// Nothing is allocated.
#[tactic(auto, unfolding(crate::specs::Lines::event_line_of))]
pub fn event_line(local: &Local, event: &Event, units: Units, out: &mut ArrayString<96>)
    requires local { IsLocal local.now }
    requires named { IsTrue (has_word units event.now.kind) }
    requires empty { out.old.bytes ≡ [] }
    ensures { out.new.bytes ≡ event_line_of local.now event.now units }
{
    height_line(local, event.level, units, out);
    out.push_str("  ");
    out.push_str(word(units, event.kind, event.level).text());
    out.push('\n');
}

/// Writes the line of `level`, in millionths of the unit, at the local time `local`, such as
/// `2000-01-10 06:00 UTC      -1.00 feet`, without an LF, to `out`, which must be empty. The line
/// has at most 57 bytes. The local year is from 0 to 9999, and the offset from universal time, if
/// the label isn't UTC, from -1560 to 1560 minutes. Nothing is allocated.
#[tactic(auto, unfolding(crate::specs::Lines::height_line_of))]
pub fn height_line(local: &Local, level: i64, units: Units, out: &mut ArrayString<96>)
    requires local { IsLocal local.now }
    requires empty { out.old.bytes ≡ [] }
    ensures bytes { out.new.bytes ≡ height_line_of local.now level units }
    ensures length_bound { array_string_len out.new ≤ 57 }
{
    write_local(local, out);
    out.push_str("  ");
    push_level(level, out);
    out.push(' ');
    out.push_str(unit_text(units));
}
