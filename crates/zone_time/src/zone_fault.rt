//! The errors of reading a zone file.

use thiserror::Error;

/// The reason why bytes couldn't be read as a zone file.
#[derive(Clone, Copy, Debug, PartialEq, Eq, Error)]
pub enum ZoneFault {
    /// The bytes aren't a zone file, or the rule in the file's footer doesn't give the clock type
    /// (offset, daylight saving flag and abbreviation) of the last row of the file's table.
    #[error("a bad zone file")]
    BadZone,
    /// Memory ran out while the zone file was read.
    #[error("no memory for the zone")]
    NoMemory,
}
