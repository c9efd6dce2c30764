//! The level now and the next events.

ghost use Rattle.std.specs.Prelude.{◌≡◌, ◌++◌, All, IfOk, OnOk};
ghost use Rattle.event_text.specs.Lines.{IsListed};
ghost use Rattle.listing.specs.Listings.{clock_text_of, direction_of, now_line_of};
ghost use Rattle.zone_time.specs.Zones.{IsZone, InZoneYears};

use crate::plain::{name_line, push_events};
use arrayvec::ArrayString;
use curve_law::Events;
use decimal_text::{Bytes, Text};
use event_text::height_line;
use harmonics_book::Units;
use std::alloc::{AllocError, Global};
use zone_time::{Zone, ZoneClock};

/// Returns lines with local times in `zone`: the station's `name`; the current level, such as
/// `Now 2000-01-10 03:00 UTC       0.00 feet  Falling`; and each of `events`, such as
/// `2000-01-10 06:00 UTC      -1.00 feet  Low Tide`.
///
/// `level` is the level at the minute `now`, in millionths of `units`; `rising` says whether it rises.
/// Each event has a name in `units` ([`word`](event_text::word)) and a level in millionths of `units`.
/// Minutes are counted from 1970-01-01T00:00Z and are in the years 2 to 9300 or on the day before them.
///
/// # Errors
/// [`AllocError`] if memory runs out.
#[tactic(auto, unfolding(crate::specs::Listings::clock_text_of))]
pub fn clock_text(
    alloc: Global,
    name: &Text,
    units: Units,
    now: i64,
    level: i64,
    rising: bool,
    events: &Events,
    zone: &Zone,
) -> Result<Bytes, AllocError>
    requires zone { IsZone zone.now }
    requires now { InZoneYears now }
    requires listed { All (IsListed units) events.now }
    ensures { IfOk result (λ text. text ≡ clock_text_of name.now units now level rising events.now zone.now) }
{
    let clock = zone.clock();
    let mut text = name_line(alloc, name)?;
    push_now(&mut text, units, now, level, rising, &clock)?;
    push_events(&mut text, units, events.as_slice(), &clock)?;
    Ok(Bytes::from_vec(text))
}

/// Appends the line of the `level`, in millionths of `units`, at the minute `now` since
/// 1970-01-01T00:00Z.
fn push_now(
    text: &mut Vec<u8>,
    units: Units,
    now: i64,
    level: i64,
    rising: bool,
    zone: &ZoneClock<'_>,
) -> Result<(), AllocError>
    requires now { InZoneYears now }
    ensures { OnOk result (text.new.items ≡ text.old.items ++ now_line_of zone.now units now level rising) }
{
    let local = zone.local(now);
    let mut height = ArrayString::new();
    height_line(&local, level, units, &mut height);
    text.extend_from_slice(b"Now ")?;
    text.extend_from_slice(height.as_str().as_bytes())?;
    text.extend_from_slice(b"  ")?;
    text.extend_from_slice(direction(rising).as_bytes())?;
    text.extend_from_slice(b"\n")
}

/// Returns `Rising` if `rising`, and `Falling` otherwise.
fn direction(rising: bool) -> &'static str
    ensures { result.now ≡ direction_of rising }
{
    if rising { "Rising" } else { "Falling" }
}
