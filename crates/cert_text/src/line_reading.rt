//! Reading the first five lines of a certificate.

ghost use Rattle.std.specs.Prelude.{◌≡◌, option_copied};
ghost use Rattle.cert_text.specs.Workings.LineReading.{version_of, named, station_of, moment_after, mark_within, mark_of};

use crate::lines::after;
use crate::numbers::level_after;
use decimal_text::are_name_bytes;
use zone_time::read_moment;

/// Returns the version, 1 or 2, in `line`, the first line of a certificate, without its LF. Returns
/// `None` if `line` is neither `tide certificate 1` nor `tide certificate 2`.
#[tactic(auto, unfolding(crate::specs::Workings::LineReading::version_of))]
pub fn version_of(line: &[u8]) -> Option<u32>
    ensures { result ≡ version_of line.now }
{
    if line == b"tide certificate 1".as_slice() {
        Some(1)
    } else if line == b"tide certificate 2".as_slice() {
        Some(2)
    } else {
        None
    }
}

/// Returns `bytes` as text, or `None` if they can't be a station's name: UTF-8 of 1 to 400 bytes
/// without ASCII control bytes.
fn named(bytes: &[u8]) -> Option<&str>
    ensures { option_copied result ≡ named bytes.now }
{
    if bytes.is_empty() || bytes.len() > 400 || !are_name_bytes(bytes) {
        return None;
    }
    match str::from_utf8(bytes) {
        Ok(name) => Some(name),
        Err(_) => None,
    }
}

/// Returns the station's name in a line such as `station Pier`, without its LF. Returns `None` if
/// `line` isn't `station ` and UTF-8 of 1 to 400 bytes without ASCII control bytes.
#[tactic(auto, unfolding(crate::specs::Workings::LineReading::station_of))]
pub fn station_of(line: &[u8]) -> Option<&str>
    ensures { option_copied result ≡ station_of line.now }
{
    named(after(b"station ".as_slice(), line)?)
}

/// Returns the minute that follows `word` on `line`, counted from 1970-01-01T00:00Z. Returns `None`
/// if `line` isn't `word` and a minute of the years 1 to 9999, such as `2000-01-10T06:00Z`.
#[tactic(auto, unfolding(crate::specs::Workings::LineReading::moment_after))]
pub fn moment_after(word: &[u8], line: &[u8]) -> Option<i64>
    ensures { result ≡ moment_after word.now line.now }
{
    read_moment(after(word, line)?)
}

/// Returns `Some(Some(mark))`, or `None` unless `mark` is from -10,000,000,000 to 10,000,000,000
/// millionths of the station's unit.
fn mark_within(mark: i64) -> Option<Option<i64>>
    ensures { result ≡ mark_within mark }
{
    if mark.unsigned_abs() <= 10_000_000_000 {
        Some(Some(mark))
    } else {
        None
    }
}

/// Returns the mark in `line`, which is without its LF: `Some(None)` for `mark none`, and
/// `Some(Some(mark))` for a line such as `mark 1500000`, in millionths of the station's unit, from
/// -10,000,000,000 to 10,000,000,000. Returns `None` if `line` is neither.
#[tactic(auto, unfolding(crate::specs::Workings::LineReading::mark_of))]
pub fn mark_of(line: &[u8]) -> Option<Option<i64>>
    ensures { result ≡ mark_of line.now }
{
    if line == b"mark none".as_slice() {
        return Some(None);
    }
    mark_within(level_after(b"mark ".as_slice(), line)?)
}
