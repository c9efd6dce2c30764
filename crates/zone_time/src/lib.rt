//! Moments and local times.
//!
//! A moment is a number of minutes since 1970-01-01T00:00Z. [`read_moment`] and [`write_moment`]
//! convert between moments and texts such as `2000-01-10T00:00Z`, by the calendar of `jiff`. A
//! [`Zone`] is universal time, a fixed offset, or a zone file that [`read_zone`] has parsed. Its
//! [`ZoneClock`] shows a [`Local`] time at each moment, and [`write_local`] writes this as text.
#![tactic(auto)]

mod dates;
mod laws;
mod local;
mod local_text;
mod reading;
mod worked;
mod writing;
mod zone;
mod zone_clock;
mod zone_fault;
mod zone_file;
mod zone_reading;

pub use dates::{MINUTES_OF_DAY, write_clock, write_date};
pub use laws::{days_have_their_date, moments_have_one_text, zone_files_go_by_jiff};
pub use local::{Label, Local};
pub use local_text::{write_local, write_time};
pub use reading::read_moment;
pub use worked::{worked_clocks, worked_locals, worked_readings, worked_texts, worked_zone_files};
pub use writing::write_moment;
pub use zone::Zone;
pub use zone_clock::ZoneClock;
pub use zone_fault::ZoneFault;
pub use zone_file::ZoneFile;
pub use zone_reading::read_zone;
