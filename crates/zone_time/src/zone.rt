//! Time zones: universal time, a fixed offset, or a zone file.

ghost use Rattle.std.specs.Prelude.{◌≡◌};
ghost use Rattle.zone_time.specs.Locals.{IsLocal};
ghost use Rattle.zone_time.specs.Zones.{IsZone, InZoneYears, local_in};

use crate::local::Local;
use crate::zone_clock::ZoneClock;
use crate::zone_file::ZoneFile;

/// A time zone, in which local times are shown: universal time, a fixed offset from it, or the zone
/// of a zone file.
#[derive(Drop)]
pub enum Zone {
    /// Universal time.
    Utc,
    /// A fixed offset: the minutes by which the clock is ahead of universal time, negative if it is
    /// behind. Local times can be shown for offsets from -1560 to 1560 (26 hours).
    Fixed(i32),
    /// The zone of a zone file, which [`read_zone`](crate::read_zone) has parsed.
    File(ZoneFile),
}

impl Zone {
    /// Returns the clock that shows local times in this zone. A fixed offset must be from -1560 to
    /// 1560 minutes.
    pub fn clock(&self) -> ZoneClock<'_>
        requires { IsZone self.now }
        ensures { result ≡ self.now }
    {
        ZoneClock::new(self)
    }

    /// Returns the local time in this zone at `minute`, counted from 1970-01-01T00:00Z, with
    /// seconds rounded down. `minute` is in the years 2 to 9300 or on the day before 0002-01-01,
    /// and a fixed offset is from -1560 to 1560 minutes.
    pub fn local(&self, minute: i64) -> Local
        requires zone { IsZone self.now }
        requires minute { InZoneYears minute }
        ensures exact { result ≡ local_in self.now minute }
        ensures written { IsLocal result }
    {
        self.clock().local(minute)
    }
}
