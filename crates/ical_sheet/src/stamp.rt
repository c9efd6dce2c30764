//! Moments in the form of a calendar.

ghost use Rattle.std.specs.Prelude.{◌≡◌, [], ◌∷◌, length, slice_index};
ghost use Rattle.ical_sheet.specs.Calendars.{nearest_moment, stamp_of};
ghost use Rattle.zone_time.specs.Moments.{IsMoment};

use arrayvec::ArrayString;
use zone_time::write_moment;

/// The moment 0001-01-01T00:00Z, in minutes since 1970-01-01T00:00Z.
const FIRST_MOMENT: i64 = -1_035_593_280;

/// The moment 9999-12-31T23:59Z, in minutes since 1970-01-01T00:00Z.
const LAST_MOMENT: i64 = 4_223_371_679;

/// Returns the minute of the years 1 to 9999 that is nearest to `minute`.
pub(crate) fn nearest_moment(minute: i64) -> i64
    ensures nearest { result ≡ nearest_moment minute }
    ensures moment { IsMoment result }
{
    minute.clamp(FIRST_MOMENT, LAST_MOMENT)
}

/// Returns the text of `moment`, in minutes since 1970-01-01T00:00Z, such as `20000110T060000Z` (RFC
/// 5545, 3.3.5).
pub(crate) fn stamp(moment: i64) -> [u8; 16]
    requires { IsMoment moment }
    ensures { result ≡ stamp_of moment }
{
    let mut text = ArrayString::<20>::new();
    write_moment(moment, &mut text);
    without_marks(text.as_bytes())
}

/// Returns `text`, a moment such as `2000-01-10T06:00Z`, in the form `20000110T060000Z`.
fn without_marks(text: &[u8]) -> [u8; 16]
    requires { length text.now ≡ 17 }
    ensures { result ≡ slice_index text.now 0 ∷ slice_index text.now 1 ∷ slice_index text.now 2 ∷ slice_index text.now 3
        ∷ slice_index text.now 5 ∷ slice_index text.now 6 ∷ slice_index text.now 8 ∷ slice_index text.now 9 ∷ 84
        ∷ slice_index text.now 11 ∷ slice_index text.now 12 ∷ slice_index text.now 14 ∷ slice_index text.now 15 ∷ 48 ∷ 48 ∷ 90 ∷ [] }
{
    [
        text[0], text[1], text[2], text[3], text[5], text[6], text[8], text[9], b'T', text[11],
        text[12], text[14], text[15], b'0', b'0', b'Z',
    ]
}
