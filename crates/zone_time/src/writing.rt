//! Writing the text of a moment.

ghost use Rattle.std.specs.Prelude.{◌≡◌, []};
ghost use Rattle.zone_time.specs.Moments.{IsMoment, moment_text};

use crate::dates::{MINUTES_OF_DAY, push_ascii, write_clock, write_date};
use arrayvec::ArrayString;

/// Writes the moment `m`, in minutes since 1970-01-01T00:00Z, as `2000-01-10T00:00Z` to `out`,
/// which must be empty. The year is from 1 to 9999. Nothing is allocated.
#[tactic(auto, unfolding(crate::specs::Moments::moment_text))]
pub fn write_moment(m: i64, out: &mut ArrayString<20>)
    requires moment { IsMoment m }
    requires empty { out.old.bytes ≡ [] }
    ensures { out.new.bytes ≡ moment_text m }
{
    write_date(m.div_euclid(MINUTES_OF_DAY), out);
    push_ascii('T', out);
    write_clock(m.rem_euclid(MINUTES_OF_DAY) as u32, out);
    push_ascii('Z', out);
}
