//! The clock of a time zone.

ghost use Rattle.std.specs.Prelude.{◌≡◌};
ghost use Rattle.zone_time.specs.Locals.{IsLocal};
ghost use Rattle.zone_time.specs.Zones.{IsZone, InZoneYears, local_in};

use crate::local::{Label, Local};
use crate::zone::Zone;
use std::marker::Model;

/// The clock of a time zone, which shows the local time at each minute; [`Zone::clock`] makes it.
/// In contracts its value is the zone. If this is a fixed offset, it is from -1560 to 1560 minutes.
#[derive(Drop)]
pub struct ZoneClock<'a> {
    zone: &'a Zone,
}

impl<'a> Model for ZoneClock<'a> {
    ghost use Rattle.zone_time.specs.declared.zone.Zone.{Zone};

    ghost Value = { Zone };

    ghost use Rattle.zone_time.specs.Zones.{IsZone};

    ghost view = { λ clock. clock.zone.now };

    ghost invariant = { λ clock. IsZone clock.zone.now };
}

impl<'a> ZoneClock<'a> {
    pub(crate) fn new(zone: &'a Zone) -> ZoneClock<'a>
        requires { IsZone zone.now }
        ensures { result ≡ zone.now }
    {
        ZoneClock { zone }
    }

    /// Returns the zone of this clock.
    pub fn zone(&self) -> &'a Zone
        ensures exact { result.now ≡ self.now }
        ensures zone { IsZone result.now }
    {
        self.zone
    }

    /// Returns the local time at `minute`, counted from 1970-01-01T00:00Z, in the years 2 to 9300
    /// or on the day before 0002-01-01. Seconds are rounded down. In universal time the label is
    /// `UTC`; in any other zone it is the offset, the minute shown less `minute`.
    pub fn local(&self, minute: i64) -> Local
        requires { InZoneYears minute }
        ensures exact { result ≡ local_in self.now minute }
        ensures written { IsLocal result }
    {
        match self.zone {
            Zone::Utc => Local {
                minute,
                label: Label::Utc,
            },
            Zone::Fixed(utc_offset) => Local {
                minute: minute + i64::from(*utc_offset),
                label: Label::Minutes(*utc_offset),
            },
            Zone::File(file) => file.local(minute),
        }
    }
}
