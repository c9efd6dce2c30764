//! Putting the values of keys into a question.

ghost use Rattle.std.specs.Prelude.{◌≡◌, IfOk, OnOk, is_some, unwrap_or};
ghost use Rattle.question.specs.Forms.{some_text, zone_of, sheets_of};
ghost use Rattle.question.specs.declared.origin.Origin.{Origin};
ghost use Rattle.question.specs.declared.question.ZoneWord.TheVariants.{Utc};
ghost use Rattle.question.specs.Questions.{question_from, has_form, no_key_texts};
ghost use Rattle.question.specs.Workings.KeyTexts.{with_value};

use crate::command::Command;
use crate::key::Key;
use crate::layout::Layout;
use crate::origin::Origin;
use crate::question::{Question, ZoneWord};
use crate::sheets::sheets;
use crate::values::{mark, port, seed, some_text, step};
use crate::zone_word::zone;
use decimal_text::{Text, Words};
use std::alloc::{AllocError, Global};
use zone_time::read_moment;

const DEFAULT_STEP: i64 = 60;

const DEFAULT_PORT: u16 = 8080;

/// Returns a question of `command` in which no key is given: each field is the key's default, or
/// `None` if the key has none.
pub fn bare_question(command: Command) -> Question
    ensures { (origin : Origin) → result ≡ question_from origin command no_key_texts }
{
    Question {
        command,
        file: None,
        offsets: None,
        certificate: None,
        station: None,
        begin: None,
        end: None,
        mark: None,
        step: DEFAULT_STEP,
        zone: ZoneWord::Utc,
        layout: Layout::Plain,
        seed: None,
        port: DEFAULT_PORT,
        sheets: None,
    }
}

/// Parses `text` as the value of `key` in a question from `origin`, and puts it into `question`.
/// Returns true if the text has the form of the key's values. Otherwise the field becomes the key's
/// default, or `None` if the key has none.
///
/// # Errors
/// [`AllocError`] if memory runs out.
pub fn put_value(
    alloc: Global,
    origin: Origin,
    key: Key,
    text: &str,
    question: &mut Question,
) -> Result<bool, AllocError>
    ensures form { IfOk result (λ is_read. is_read ≡ has_form origin key text.now) }
    ensures value { OnOk result (question.new ≡ with_value origin key text.now question.old) }
{
    match key {
        Key::File => put_text(alloc, text, &mut question.file),
        Key::Offsets => put_text(alloc, text, &mut question.offsets),
        Key::Certificate => put_text(alloc, text, &mut question.certificate),
        Key::Station => put_text(alloc, text, &mut question.station),
        Key::Begin => Ok(put(read_moment(text.as_bytes()), &mut question.begin)),
        Key::End => Ok(put(read_moment(text.as_bytes()), &mut question.end)),
        Key::Mark => Ok(put(mark(text), &mut question.mark)),
        Key::Step => Ok(put_or(step(text), DEFAULT_STEP, &mut question.step)),
        Key::Zone => put_zone(alloc, origin, text, &mut question.zone),
        Key::Layout => Ok(put_or(Layout::named(text), Layout::Plain, &mut question.layout)),
        Key::Seed => Ok(put(seed(text), &mut question.seed)),
        Key::Port => Ok(put_or(port(text), DEFAULT_PORT, &mut question.port)),
        Key::Sheets => put_sheets(alloc, text, &mut question.sheets),
    }
}

/// Puts `value` into `field`, and returns true if `value` isn't `None`.
fn put<V: Copy>(value: Option<V>, field: &mut Option<V>) -> bool
    ensures put { field.new ≡ value }
    ensures is_some { result ≡ is_some value }
{
    *field = value;
    value.is_some()
}

/// Puts `value`, or `default` if `value` is `None`, into `field`, and returns true if `value` isn't
/// `None`.
fn put_or<V: Copy>(value: Option<V>, default: V, field: &mut V) -> bool
    ensures put { field.new ≡ unwrap_or value default }
    ensures is_some { result ≡ is_some value }
{
    *field = value.unwrap_or(default);
    value.is_some()
}

fn put_text(alloc: Global, text: &str, field: &mut Option<Text>) -> Result<bool, AllocError>
    ensures put { OnOk result (field.new ≡ some_text text.now) }
    ensures is_some { IfOk result (λ is_read. is_read ≡ is_some (some_text text.now)) }
{
    *field = some_text(alloc, text)?;
    Ok(field.is_some())
}

fn put_zone(
    alloc: Global,
    origin: Origin,
    text: &str,
    field: &mut ZoneWord,
) -> Result<bool, AllocError>
    ensures put { OnOk result (field.new ≡ unwrap_or (zone_of origin text.now) Utc) }
    ensures is_some { IfOk result (λ is_read. is_read ≡ is_some (zone_of origin text.now)) }
{
    let zone = zone(alloc, origin, text)?;
    let is_read = zone.is_some();
    *field = zone.unwrap_or(ZoneWord::Utc);
    Ok(is_read)
}

fn put_sheets(alloc: Global, text: &str, field: &mut Option<Words>) -> Result<bool, AllocError>
    ensures put { OnOk result (field.new ≡ sheets_of text.now) }
    ensures is_some { IfOk result (λ is_read. is_read ≡ is_some (sheets_of text.now)) }
{
    *field = sheets(alloc, text)?;
    Ok(field.is_some())
}
