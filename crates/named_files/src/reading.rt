//! The files of a request, read.

ghost use Rattle.std.specs.Prelude.{◌≡◌, ◌≤◌, length, Some};
ghost use Rattle.harmonics_book.specs.Books.{IsBook};
ghost use Rattle.question.specs.Asked.{IsZoneWord};
ghost use Rattle.zone_time.specs.Zones.{IsZone};
ghost use Rattle.named_files.specs.Opened.{ReadsFile, ReadsFiles};
ghost use Rattle.named_files.specs.Readings.{
  zone_file,
  limit_of,
  fault_of_reading,
  bytes_of,
  book_named,
  table_from,
  table_named,
  zone_from,
  zone_named,
  certificate_named,
};
ghost use Rattle.decimal_text.specs.declared.limits.TheConstants.{MOST_BYTES};

use crate::loading::{LoadFault, load_book};
use crate::materials::Materials;
use crate::run_fault::RunFault;
use decimal_text::{Bytes, MOST_BYTES, Text};
use harmonics_book::Book;
use question::{ValidQuestion, ZoneWord};
use station_table::{OffsetFault, OffsetTable, read_offsets};
use std::alloc::Global;
use tide_edge::{Files, ReadAllFault, read_all};
use tide_fault::{Fault, Refusal, Slot};
use zone_time::{Zone, ZoneFault, read_zone};

/// Returns the contents of the files that `question` names. They are read in this order: the
/// harmonics file, called `name`; then the table of offsets, the zone file and the certificate, as
/// far as `question` names them. Each is opened once, and its contents are checked before the next
/// is opened; after a fault none is opened.
///
/// # Errors
/// [`RunFault::Unread`] if a file can't be opened or read, and [`RunFault::Faulty`] if a file is too
/// long or isn't in its format, or if memory runs out: the first of these faults.
pub fn read_files<F: Files>(
    alloc: Global,
    files: &mut F,
    question: &ValidQuestion<'_>,
    name: &Text,
) -> Result<Materials, RunFault>
    requires zone { IsZoneWord question.now.zone }
    ensures { ReadsFiles question.now name.now (F.state files.old) (F.state files.new) result }
{
    let question = question.get();
    let book = read_book(alloc, files, name)?;
    let table = read_table(alloc, files, &question.offsets)?;
    let zone = read_zone_named(alloc, files, &question.zone)?;
    let certificate = read_certificate(alloc, files, &question.certificate)?;
    Ok(Materials {
        book,
        table,
        zone,
        certificate,
    })
}

/// Returns the harmonic constants in the file `name`. A file that is longer than 67,108,864 bytes isn't
/// read to its end.
///
/// # Errors
/// [`RunFault::Unread`] if the file can't be opened or read, and [`RunFault::Faulty`] if it is too long
/// or has a bad line, or if memory runs out.
pub fn read_book<F: Files>(alloc: Global, files: &mut F, name: &Text) -> Result<Book, RunFault>
    ensures { ReadsFile Slot.File (Some name.now) (λ folder. book_named folder name.now) IsBook
        (F.state files.old) (F.state files.new) result }
{
    match load_book(alloc, files, name, limit_of(Slot::File)) {
        Ok(book) => Ok(book),
        Err(fault) => Err(RunFault::from(fault)),
    }
}

/// Returns the table of subordinate stations in the file `name`, or a table without rows if `name` is
/// `None`.
///
/// # Errors
/// [`RunFault::Unread`] if the file can't be opened or read, and [`RunFault::Faulty`] if it is longer
/// than 67,108,864 bytes or has a bad row, or if memory runs out.
pub fn read_table<F: Files>(
    alloc: Global,
    files: &mut F,
    name: &Option<Text>,
) -> Result<OffsetTable, RunFault>
    ensures { ReadsFile Slot.Offsets name.now (λ folder. table_named folder name.now) (λ _. Unit {0})
        (F.state files.old) (F.state files.new) result }
{
    match name {
        Some(name) => {
            let bytes = read_file(alloc, files, name, Slot::Offsets)?;
            table_from(read_offsets(alloc, bytes.as_slice()))
        }
        None => Ok(OffsetTable::new(alloc)),
    }
}

/// Returns the table that was read, or the reason why there is none. It doesn't allocate.
fn table_from(read: Result<OffsetTable, OffsetFault>) -> Result<OffsetTable, RunFault>
    ensures { result ≡ table_from read }
{
    match read {
        Ok(table) => Ok(table),
        Err(fault) => Err(RunFault::Faulty(Fault::Offsets(fault))),
    }
}

/// Returns the zone of `word`, which may name a file.
fn read_zone_named<F: Files>(
    alloc: Global,
    files: &mut F,
    word: &ZoneWord,
) -> Result<Zone, RunFault>
    requires { IsZoneWord word.now }
    ensures { ReadsFile Slot.Zone (zone_file word.now) (λ folder. zone_named folder word.now) IsZone
        (F.state files.old) (F.state files.new) result }
{
    match word {
        ZoneWord::Utc => Ok(Zone::Utc),
        ZoneWord::Fixed(minutes) => Ok(Zone::Fixed(*minutes)),
        ZoneWord::Named(name) => {
            let bytes = read_file(alloc, files, name, Slot::Zone)?;
            zone_from(read_zone(alloc, bytes.as_slice()))
        }
    }
}

/// Returns the zone that was read, or the reason why there is none. It doesn't allocate.
fn zone_from(read: Result<Zone, ZoneFault>) -> Result<Zone, RunFault>
    ensures { result ≡ zone_from read }
{
    match read {
        Ok(zone) => Ok(zone),
        Err(ZoneFault::BadZone) => Err(RunFault::Faulty(Fault::BadZone)),
        Err(ZoneFault::NoMemory) => Err(RunFault::Faulty(Fault::Refused(Refusal::NoMemory))),
    }
}

/// Reads the text of the certificate in the file `name`, or returns no bytes if there is no name.
fn read_certificate<F: Files>(
    alloc: Global,
    files: &mut F,
    name: &Option<Text>,
) -> Result<Bytes, RunFault>
    ensures { ReadsFile Slot.Certificate name.now (λ folder. certificate_named folder name.now) (λ bytes. length bytes ≤ MOST_BYTES)
        (F.state files.old) (F.state files.new) result }
{
    match name {
        Some(name) => read_file(alloc, files, name, Slot::Certificate),
        None => Ok(Bytes::from_vec(Vec::new(alloc))),
    }
}

/// Reads the bytes of the file `name`, which is the file of `slot`.
fn read_file<F: Files>(
    alloc: Global,
    files: &mut F,
    name: &Text,
    slot: Slot,
) -> Result<Bytes, RunFault>
    ensures { ReadsFile slot (Some name.now) (λ folder. bytes_of slot (folder name.now)) (λ bytes. length bytes ≤ limit_of slot)
        (F.state files.old) (F.state files.new) result }
{
    match read_all(alloc, files, name, limit_of(slot)) {
        Ok(bytes) => Ok(bytes),
        Err(fault) => Err(fault_of_reading(slot, fault)),
    }
}

/// Returns the greatest number of bytes that are read of a file with the purpose `slot`.
fn limit_of(slot: Slot) -> u64
    ensures { result ≡ limit_of slot }
{
    match slot {
        Slot::File | Slot::Offsets => 67_108_864,
        Slot::Zone => 1_048_576,
        Slot::Certificate => MOST_BYTES as u64,
    }
}

/// Returns the reason why the file of `slot` couldn't be read.
fn fault_of_reading(slot: Slot, fault: ReadAllFault) -> RunFault
    ensures { result ≡ fault_of_reading slot fault }
{
    match fault {
        ReadAllFault::Failed => RunFault::Unread,
        ReadAllFault::TooLong => RunFault::Faulty(Fault::TooLong(slot)),
        ReadAllFault::NoMemory => RunFault::Faulty(Fault::Refused(Refusal::NoMemory)),
    }
}

impl From<LoadFault> for RunFault {
    ghost use Rattle.std.specs.Prelude.{◌≡◌};
    ghost use Rattle.named_files.specs.Readings.{fault_of_loading};

    ghost from_gives = { λ load none. none ≡ fault_of_loading load };

    fn from(fault: LoadFault) -> RunFault {
        match fault {
            LoadFault::Failed => RunFault::Unread,
            LoadFault::TooLong => RunFault::Faulty(Fault::TooLong(Slot::File)),
            LoadFault::Book(form) => RunFault::Faulty(Fault::Book(form)),
        }
    }
}
