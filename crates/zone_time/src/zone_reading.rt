//! Reading zone files.

ghost use Rattle.std.specs.Prelude.{IfOk};
ghost use Rattle.decimal_text.specs.Expected.{EqualsUnlessNoMemory};
ghost use Rattle.zone_time.specs.Zones.{IsZone, is_out_of_memory, zone_of};

use crate::zone::Zone;
use crate::zone_fault::ZoneFault;
use crate::zone_file::ZoneFile;
use jiff_core::Error;
use jiff_tz::Tzif;
use std::alloc::Global;

/// Returns the zone of the zone file `bytes`, which may have any length. Its clock follows the
/// file's table, and from the last row of the table on the rule in the file's footer, if there is
/// one.
///
/// # Errors
/// [`ZoneFault::BadZone`] if `bytes` aren't a zone file, or if the rule in the footer doesn't give
/// the clock type (offset, daylight saving flag and abbreviation) of the table's last row.
/// [`ZoneFault::NoMemory`] if memory runs out.
///
/// # Examples
/// ```
/// let fault = read_zone(rt.alloc(), b"no zone").err();
/// assert_eq!(rt; fault, Some(ZoneFault::BadZone));
/// ```
#[tactic(auto, unfolding(crate::specs::Zones::zone_of))]
pub fn read_zone(alloc: Global, bytes: &[u8]) -> Result<Zone, ZoneFault>
    ensures exact { EqualsUnlessNoMemory is_out_of_memory (zone_of bytes.now) result }
    ensures zone { IfOk result IsZone }
{
    match Tzif::parse(alloc, None, bytes) {
        Ok(tzif) => Ok(Zone::File(ZoneFile::new(tzif))),
        Err(Error::Tzif(_)) => Err(ZoneFault::BadZone),
        Err(_) => Err(ZoneFault::NoMemory),
    }
}
