//! The clock of a zone file.

ghost use Rattle.std.specs.Prelude.{◌≡◌, pos, ◌+ℤ◌, ◌-ℤ◌, ◌*ℤ◌};
ghost use Rattle.std.specs.Int.{int_div_euclid};
ghost use Rattle.jiff_core.specs.Calendar.{IsWithin};
ghost use Rattle.jiff_core.specs.Timestamp.{nanos_of_seconds};
ghost use Rattle.jiff_tz.specs.Tzif.{tzif_view};
ghost use Rattle.zone_time.specs.Locals.{IsLocal};
ghost use Rattle.zone_time.specs.Zones.{InZoneYears, local_at};

use crate::local::{Label, Local};
use jiff_core::Timestamp;
use jiff_tz::Tzif;
use std::marker::Model;

/// A zone file that `jiff` has parsed: a table of the offsets from universal time, each from some
/// second on, and an optional rule for the time after the last of them. In contracts its value is
/// the content of the file.
#[derive(Drop)]
pub struct ZoneFile {
    tzif: Tzif,
}

impl Model for ZoneFile {
    ghost use Rattle.jiff_tz.specs.TzifReader.{TzifText};
    ghost use Rattle.jiff_tz.specs.Tzif.{tzif_view};

    ghost Value = { TzifText };

    ghost view = { λ f. tzif_view f.tzif };
}

impl ZoneFile {
    ghost use Rattle.zone_time.specs.ZoneFiles.{seconds_ahead, clock_minute};

    pub(crate) fn new(tzif: Tzif) -> ZoneFile
        ensures { result ≡ tzif_view tzif }
    {
        ZoneFile { tzif }
    }

    /// Returns the local time at `minute`, counted from 1970-01-01T00:00Z, with seconds rounded
    /// down.
    #[tactic(auto, unfolding(crate::specs::ZoneFiles::clock_minute))]
    pub(crate) fn local(&self, minute: i64) -> Local
        requires { InZoneYears minute }
        ensures exact { result ≡ local_at minute (clock_minute self.now minute) }
        ensures written { IsLocal result }
    {
        local_showing(minute, minute_shown(minute, self.utc_offset(minute)))
    }

    /// Returns the seconds by which the file's clock is ahead of universal time at the start of
    /// `minute`, counted from 1970-01-01T00:00Z.
    fn utc_offset(&self, minute: i64) -> i32
        requires { InZoneYears minute }
        ensures value { result ≡ seconds_ahead self.now (minute *ℤ pos 60) }
        ensures within { IsWithin 93599 result }
    {
        let offset = self.tzif.to_offset(instant(minute));
        offset.seconds
    }
}

/// Returns the instant at which `minute` begins.
fn instant(minute: i64) -> Timestamp
    requires { InZoneYears minute }
    ensures { result.nanosecond ≡ nanos_of_seconds (minute *ℤ pos 60) }
{
    Timestamp {
        nanosecond: i128::from(minute) * 60_000_000_000,
    }
}

/// Returns the minute that a clock `utc_offset` seconds ahead of universal time shows at `minute`,
/// with seconds rounded down.
fn minute_shown(minute: i64, utc_offset: i32) -> i64
    requires minute { InZoneYears minute }
    requires utc_offset { IsWithin 93599 utc_offset }
    ensures value { result ≡ int_div_euclid ((minute *ℤ pos 60) +ℤ utc_offset) (pos 60) }
    ensures in_range { IsWithin 1560 (result -ℤ minute) }
{
    let second = minute * 60 + i64::from(utc_offset);
    second.div_euclid(60)
}

/// Returns the local time of a clock that shows the minute `shown` at `minute` of universal time.
fn local_showing(minute: i64, shown: i64) -> Local
    requires minute { InZoneYears minute }
    requires in_range { IsWithin 1560 (shown -ℤ minute) }
    ensures exact { result ≡ local_at minute shown }
    ensures written { IsLocal result }
{
    Local {
        minute: shown,
        label: Label::Minutes(minutes_ahead(minute, shown)),
    }
}

fn minutes_ahead(minute: i64, shown: i64) -> i32
    requires minute { InZoneYears minute }
    requires in_range { IsWithin 1560 (shown -ℤ minute) }
    ensures value { result ≡ shown -ℤ minute }
{
    (shown - minute) as i32
}
