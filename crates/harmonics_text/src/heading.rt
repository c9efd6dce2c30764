//! The parts of a harmonics file before its tables: constituents with their speeds, and years.

ghost use Rattle.std.specs.Prelude.{◌≡◌};
ghost use Rattle.harmonics_text.specs.Rules.{is_absent, is_end, has_name, new_name_of, constituent_of};
ghost use Rattle.harmonics_text.specs.Workings.BookParsing.{Follows};

use crate::fault::{LineFault, Why};
use crate::lines::{next_token, only_token};
use crate::names::name_of;
use crate::numbers::number;
use crate::scale::Scale;
use decimal_text::Text;
use harmonics_book::{Constituent, Constituents};
use std::alloc::Global;

/// The parts of a harmonics file before its tables: the constituents with their speeds, and the
/// years.
#[derive(Drop)]
pub struct Heading {
    /// The constituents with their speeds, in the file's order.
    pub constituents: Constituents,
    /// The first calendar year of both tables, from 2 to 8800.
    pub first_year: i32,
    /// The number of years in each of the two tables, from 1 to 500.
    pub years: u32,
}

/// Returns true if `token` is `x`, which stands for the constituent's name in a station's line if
/// the station doesn't have this constituent.
pub fn is_absent(token: &[u8]) -> bool
    ensures { result ≡ is_absent token.now }
{
    token == b"x".as_slice()
}

/// Returns true if `token` is `*END*`, the line after each of the two tables of a file.
pub fn is_end(token: &[u8]) -> bool
    ensures { result ≡ is_end token.now }
{
    token == b"*END*".as_slice()
}

/// Returns true if one of `constituents` has this name.
fn has_name(constituents: &[Constituent], name: &Text) -> bool
    ensures { result ≡ has_name constituents.now name.now }
{
    constituents
        .iter()
        .any(|c| c.name.as_str() == name.as_str())
}

/// Returns the name in `token`, of 1 to 32 bytes of ISO 8859-1, as UTF-8.
///
/// # Errors
/// [`Why::BadName`]: if `token` is `x` or `*END*`, has another length or a control character of
/// ASCII, or is the name of a constituent in `earlier`. [`LineFault::NoMemory`]: if memory runs
/// out.
#[tactic(auto, unfolding(crate::specs::Rules::new_name_of))]
fn new_name(alloc: Global, earlier: &Constituents, token: &[u8]) -> Result<Text, LineFault>
    ensures { Follows (λ t. t) result (new_name_of earlier.now token.now) }
{
    if is_absent(token) || is_end(token) {
        return Err(LineFault::Bad(Why::BadName));
    }
    let name = name_of(alloc, token, 32)?;
    if has_name(earlier.as_slice(), &name) {
        return Err(LineFault::Bad(Why::BadName));
    }
    Ok(name)
}

/// Returns the constituent in the line `text`: a name, and a speed in degrees per hour. The
/// constituents on the lines before are `earlier`.
///
/// # Errors
/// [`Why::BadName`]: if the name is bad or a constituent in `earlier` has it. Then,
/// [`Why::BadNumber`]: if there isn't exactly one token after the name, or it isn't a decimal.
/// [`Why::TooFine`] and [`Why::OutOfRange`]: for the speed. [`LineFault::NoMemory`]: if memory runs
/// out.
#[tactic(auto, unfolding(crate::specs::Rules::constituent_of, crate::specs::Rules::constituent_from))]
pub fn constituent(
    alloc: Global,
    earlier: &Constituents,
    text: &[u8],
) -> Result<Constituent, LineFault>
    ensures { Follows (λ c. c) result (constituent_of earlier.now text.now) }
{
    let Some((first, rest)) = next_token(text) else {
        return Err(LineFault::Bad(Why::BadName));
    };
    let name = new_name(alloc, earlier, first)?;
    let Some(second) = only_token(rest) else {
        return Err(LineFault::Bad(Why::BadNumber));
    };
    let speed = number(second, Scale::Speed)?;
    Ok(Constituent { name, speed })
}
