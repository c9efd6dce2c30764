//! The facts of a station.

ghost use Rattle.std.specs.Prelude.{◌≡◌, IfOk, string_bytes};
ghost use Rattle.listing.specs.Abouts.{about_text_of, facts_of, names_of};

use decimal_text::{Bytes, Text};
use event_text::unit_text;
use harmonics_book::Units;
use std::alloc::{AllocError, Global};

/// Returns five lines about a station: its `name`; the word `reference` and the name `reference`, the
/// station on which its predictions are based; the word `units` and the unit of its levels; the word
/// `constituents` and their number; and the word `agreement` and the number `agreement`, which bounds
/// the difference between the station's slope and the changes of its level from one minute to the next.
/// About 1.4257 * 10^35 units of this number are one of `units` a minute (docs/FORMATS.md).
///
/// # Errors
/// [`AllocError`] if memory runs out.
#[tactic(auto, unfolding(crate::specs::Abouts::about_text_of))]
pub fn about_text(
    alloc: Global,
    name: &Text,
    reference: &Text,
    units: Units,
    constituents: u64,
    agreement: i128,
) -> Result<Bytes, AllocError>
    ensures { IfOk result (λ text. text ≡ about_text_of name.now reference.now units constituents agreement) }
{
    let facts = facts(alloc, units, constituents, agreement)?;
    let mut text = names(alloc, name, reference)?;
    text.push_str(facts.as_str())?;
    Ok(Bytes::from_vec(text.into_bytes()))
}

/// Returns two lines about a station: its name, and the word `reference` with its reference's name.
fn names(alloc: Global, name: &Text, reference: &Text) -> Result<String, AllocError>
    ensures { IfOk result (λ text. string_bytes text ≡ names_of name.now reference.now) }
{
    let mut text = String::from_str(alloc, name.as_str())?;
    text.push_str("\nreference ")?;
    text.push_str(reference.as_str())?;
    text.push_str("\n")?;
    Ok(text)
}

/// Returns three lines about a station: its unit, its number of constituents, and its agreement, as
/// [`about_text`] returns them.
fn facts(
    alloc: Global,
    units: Units,
    constituents: u64,
    agreement: i128,
) -> Result<String, AllocError>
    ensures { IfOk result (λ text. string_bytes text ≡ facts_of units constituents agreement) }
{
    let count = format!(in alloc; "\nconstituents {constituents}")?;
    let bound = format!(in alloc; "\nagreement {agreement}\n")?;
    let mut text = String::from_str(alloc, "units ")?;
    text.push_str(unit_text(units))?;
    text.push_str(count.as_str())?;
    text.push_str(bound.as_str())?;
    Ok(text)
}
