//! The pages of a report.

ghost use Rattle.std.specs.Prelude.{◌≡◌, ◌++◌, All, IfOk, OnOk, map};
ghost use Rattle.std.specs.List.{list_any};
ghost use Rattle.std.specs.Str.{bytes_eq};
ghost use Rattle.event_text.specs.Lines.{IsListed};
ghost use Rattle.report_sheets.specs.Sheets.{IsHead, list_after, taken_of};
ghost use Rattle.report_sheets.specs.Pages.{is_wanted, page_of, pages_of, missing_of};

use crate::head::Head;
use crate::sheet::Sheet;
use crate::taken::Taken;
use curve_law::{Event, Events};
use decimal_text::{Bytes, Text, Words};
use std::alloc::{AllocError, Global};

/// Returns the index, counted from 0, of the first word in `wanted` that isn't the word of a sheet in
/// `sheets`, or `None` if each is. It doesn't allocate.
pub fn missing(sheets: &Vec<Box<dyn Sheet>>, wanted: &Words) -> Option<u64>
    ensures { result ≡ missing_of (map sheet_spec sheets.now.items) wanted.now }
{
    for (index, word) in wanted.as_slice().iter().enumerate() {
        if !is_sheet_name(sheets.as_slice(), word) {
            return Some(index as u64);
        }
    }
    None
}

/// Returns true if one of `sheets` has the word `word`.
fn is_sheet_name(sheets: &[Box<dyn Sheet>], word: &Text) -> bool
    ensures { result ≡ list_any (λ sheet. bytes_eq word.now (sheet_spec sheet).word) sheets.now }
{
    for sheet in sheets {
        if is_named(sheet, word) {
            return true;
        }
    }
    false
}

/// Returns true if the word of `sheet` is `word`.
fn is_named(sheet: &Box<dyn Sheet>, word: &Text) -> bool
    ensures { result ≡ bytes_eq word.now (sheet_spec sheet.now).word }
{
    sheet.named(word)
}

/// Returns the text of a report: one page for each sheet in `sheets` with a word in `wanted`, in the
/// order of `sheets`. A page shows `head` and the first of `events`, up to the limit of its sheet.
///
/// The name in `head` has no control characters, and the unit isn't knots squared. Each event has a
/// name in the unit of `head` ([`word`](event_text::word)), a level in millionths of this unit, and a
/// minute in the years 2 to 9300 or on the day before them.
///
/// # Errors
/// [`AllocError`] if memory runs out.
#[tactic(auto, using(crate::proofs::PageLemmas::pages_more, crate::proofs::PageLemmas::pages_kept), unfolding(crate::specs::Pages::pages_of))]
pub fn fill(
    alloc: Global,
    sheets: Vec<Box<dyn Sheet>>,
    wanted: &Words,
    head: &Head,
    events: &Events,
) -> Result<Bytes, AllocError>
    requires head { IsHead head.now }
    requires listed { All (IsListed head.now.units) events.now }
    ensures { IfOk result (λ text. text ≡ pages_of (map sheet_spec sheets.items) wanted.now head.entry.now events.now) }
{
    let mut text = Vec::new(alloc);
    for mut sheet in sheets {
        if is_wanted(&sheet, wanted.as_slice()) {
            push_page(&mut text, &mut sheet, head, events.as_slice())?;
        }
    }
    Ok(Bytes::from_vec(text))
}

/// Returns true if the word of `sheet` is in `wanted`.
fn is_wanted(sheet: &Box<dyn Sheet>, wanted: &[Text]) -> bool
    ensures { result ≡ is_wanted wanted.now (sheet_spec sheet.now) }
{
    for word in wanted {
        if is_named(sheet, word) {
            return true;
        }
    }
    false
}

/// Appends the page of `sheet`: opens it with `head`, passes it `events` until it is full, and appends
/// its text.
#[tactic(auto, unfolding(crate::specs::Pages::page_of))]
fn push_page(
    text: &mut Vec<u8>,
    sheet: &mut Box<dyn Sheet>,
    head: &Head,
    events: &[Event],
) -> Result<(), AllocError>
    requires head { IsHead head.now }
    requires listed { All (IsListed head.now.units) events.now }
    ensures { OnOk result (text.new.items ≡ text.old.items ++ page_of head.entry.now events.now (sheet_spec sheet.old)) }
{
    sheet.open(head)?;
    for event in events {
        match offer(sheet, event)? {
            Taken::Kept => {}
            Taken::Full => break,
        }
    }
    push_text(text, sheet)
}

/// Passes `event` to `sheet`, and returns whether the sheet took it or is full.
fn offer(sheet: &mut Box<dyn Sheet>, event: &Event) -> Result<Taken, AllocError>
    requires { IsListed (heading sheet.old).units event.now }
    ensures unchanged { sheet_spec sheet.new ≡ sheet_spec sheet.old }
    ensures heading { heading sheet.new ≡ heading sheet.old }
    ensures answer { IfOk result (λ taken. taken ≡ taken_of (sheet_spec sheet.old).limit (list sheet.old)) }
    ensures list { OnOk result (list sheet.new ≡ list_after (sheet_spec sheet.old).limit (list sheet.old) event.now) }
{
    sheet.take(event)
}

/// Appends the text of `sheet`.
fn push_text(text: &mut Vec<u8>, sheet: &Box<dyn Sheet>) -> Result<(), AllocError>
    ensures { OnOk result (text.new.items ≡ text.old.items ++ (sheet_spec sheet.now).layout (heading sheet.now) (list sheet.now)) }
{
    let page = sheet.text()?;
    text.extend_from_slice(page.as_slice())
}
