//! The highest water of a span.

ghost use Rattle.std.specs.Prelude.{◌≡◌, ◌++◌, IfOk, OnOk};
ghost use Rattle.listing.specs.Listings.{highest_line_of, highest_text_of};
ghost use Rattle.zone_time.specs.Zones.{IsZone, InZoneYears};

use crate::plain::name_line;
use arrayvec::ArrayString;
use decimal_text::{Bytes, Text};
use event_text::height_line;
use harmonics_book::Units;
use std::alloc::{AllocError, Global};
use zone_time::{Zone, ZoneClock};

/// Returns two lines: the station's `name`, and its highest level with the local time in `zone`, such
/// as `Highest 2000-01-10 00:00 UTC       1.00 feet`.
///
/// `level` is in millionths of `units`. `minute` is counted from 1970-01-01T00:00Z, in the years 2 to
/// 9300 or on the day before them.
///
/// # Errors
/// [`AllocError`] if memory runs out.
#[tactic(auto, unfolding(crate::specs::Listings::highest_text_of))]
pub fn highest_text(
    alloc: Global,
    name: &Text,
    units: Units,
    minute: i64,
    level: i64,
    zone: &Zone,
) -> Result<Bytes, AllocError>
    requires zone { IsZone zone.now }
    requires minute { InZoneYears minute }
    ensures { IfOk result (λ text. text ≡ highest_text_of name.now units minute level zone.now) }
{
    let mut text = name_line(alloc, name)?;
    push_highest(&mut text, units, minute, level, &zone.clock())?;
    Ok(Bytes::from_vec(text))
}

/// Appends the line of the highest water: its `level` in millionths of `units`, and its `minute` since
/// 1970-01-01T00:00Z.
fn push_highest(
    text: &mut Vec<u8>,
    units: Units,
    minute: i64,
    level: i64,
    clock: &ZoneClock<'_>,
) -> Result<(), AllocError>
    requires { InZoneYears minute }
    ensures { OnOk result (text.new.items ≡ text.old.items ++ highest_line_of clock.now units minute level) }
{
    let local = clock.local(minute);
    let mut height = ArrayString::new();
    height_line(&local, level, units, &mut height);
    text.extend_from_slice(b"Highest ")?;
    text.extend_from_slice(height.as_str().as_bytes())?;
    text.extend_from_slice(b"\n")
}
