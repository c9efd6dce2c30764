//! Reading the lines of which certificates consist, from a position in a text.

ghost use Rattle.std.specs.Prelude.{◌≡◌, IfOk, MatchResult};
ghost use Rattle.cert_text.specs.ByLine.{TakesExactly, line_of, is_word, items_of};
ghost use Rattle.cert_text.specs.Workings.LineReading.{version_of, station_of, moment_after, mark_of};

use crate::fault::CertFault;
use crate::line_cursor::{ItemForm, LineCursor};
use crate::line_reading::{mark_of, moment_after, station_of, version_of};
use std::alloc::{AllocError, Global};

/// Reads the next line of `lines`, which must be `word`.
///
/// # Errors
/// [`CertFault::NotACertificate`] with the number of this line, counted from 1, if it is another
/// line or is missing.
pub fn word(lines: &mut LineCursor<'_>, word: &str) -> Result<(), CertFault>
    ensures { TakesExactly (line_of (is_word word.now)) lines.old lines.new result }
{
    if lines.next()? == word.as_bytes() {
        Ok(())
    } else {
        Err(lines.fault())
    }
}

/// Reads the next line of `lines`, the title of a certificate, and returns its version, 1 or 2.
///
/// # Errors
/// [`CertFault::NotACertificate`] with the number of this line, counted from 1, if it isn't a title
/// or is missing.
pub fn version(lines: &mut LineCursor<'_>) -> Result<u32, CertFault>
    ensures { TakesExactly (line_of version_of) lines.old lines.new result }
{
    version_of(lines.next()?).ok_or(lines.fault())
}

/// Reads the next line of `lines`, such as `station Pier`, and returns the station's name.
///
/// # Errors
/// [`CertFault::NotACertificate`] with the number of this line, counted from 1, if it isn't
/// `station ` and UTF-8 of 1 to 400 bytes without ASCII control bytes, or is missing.
pub fn station<'a>(lines: &mut LineCursor<'a>) -> Result<&'a str, CertFault>
    ensures { MatchResult result
        (λ name. line_of station_of lines.old ≡ Ok (name.now, lines.new))
        (λ fault. line_of station_of lines.old ≡ Err fault) }
{
    station_of(lines.next()?).ok_or(lines.fault())
}

/// Reads the next line of `lines`, which is `word` and then a minute such as `2000-01-10T06:00Z`,
/// and returns this minute, counted from 1970-01-01T00:00Z.
///
/// # Errors
/// [`CertFault::NotACertificate`] with the number of this line, counted from 1, if it isn't `word`
/// and a minute of the years 1 to 9999, or is missing.
pub fn moment(lines: &mut LineCursor<'_>, word: &str) -> Result<i64, CertFault>
    ensures { TakesExactly (line_of (moment_after word.now)) lines.old lines.new result }
{
    moment_after(word.as_bytes(), lines.next()?).ok_or(lines.fault())
}

/// Reads the next line of `lines` and returns the mark on it, in millionths of the station's unit,
/// or `None` for the line `mark none`.
///
/// # Errors
/// [`CertFault::NotACertificate`] with the number of this line, counted from 1, if it is missing,
/// or is neither `mark none` nor `mark ` and a number from -10,000,000,000 to 10,000,000,000.
pub fn mark(lines: &mut LineCursor<'_>) -> Result<Option<i64>, CertFault>
    ensures { TakesExactly (line_of mark_of) lines.old lines.new result }
{
    mark_of(lines.next()?).ok_or(lines.fault())
}

/// Reads lines of `lines` up to the first that isn't an item of `form`, or to the last line, and
/// returns the items.
///
/// # Errors
/// [`AllocError`] if memory runs out.
pub fn items<F: ItemForm>(
    alloc: Global,
    lines: &mut LineCursor<'_>,
    form: &F,
) -> Result<Vec<F::Item>, AllocError>
    ensures { IfOk result (λ items. items_of (F.item_of form.now) lines.old ≡ Ok (items.items, lines.new)) }
{
    let mut items = Vec::new(alloc);
    while let Some(item) = lines.take_item(form) {
        items.push(item)?;
    }
    Ok(items)
}
