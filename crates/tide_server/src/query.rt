//! The command of a path and the pairs of a query.

ghost use Rattle.std.specs.Prelude.{◌≡◌, drop, IfOk, Some};
ghost use Rattle.http_rows.specs.Paths.{text_of};
ghost use Rattle.question.specs.Commands.{command_named};
ghost use Rattle.question.specs.declared.origin.Origin.{Origin};
ghost use Rattle.tide_server.specs.Queries.{item_of, items_of, decoded_text};

use decimal_text::Text;
use form_urlencoded::{decode, raw_pairs};
use http_rows::Path;
use question::{Command, Item, Items};
use std::alloc::{AllocError, Global};

/// Returns the command of `path`.
pub(crate) fn command_of(path: Path) -> Command
    ensures { command_named Origin.Query (drop 1 (text_of path)) ≡ Some result }
{
    match path {
        Path::Predict => Command::Predict,
        Path::Certify => Command::Certify,
        Path::Heights => Command::Heights,
        Path::Calendar => Command::Calendar,
        Path::Clock => Command::Clock,
        Path::Stations => Command::Stations,
        Path::Check => Command::Check,
    }
}

/// Returns the pairs of `query`, decoded.
///
/// # Errors
/// [`AllocError`] if memory runs out.
pub(crate) fn items_of(alloc: Global, query: &[u8]) -> Result<Items, AllocError>
    ensures { IfOk result (λ items. items ≡ items_of query.now) }
{
    let mut items = Vec::new(alloc);
    for (name, value) in raw_pairs(query) {
        items.push(item_of(alloc, name, value)?)?;
    }
    Ok(Items::from_vec(items))
}

/// Returns the pair of `name` and `value`, decoded.
fn item_of(alloc: Global, name: &[u8], value: &[u8]) -> Result<Item, AllocError>
    ensures { IfOk result (λ item. item ≡ item_of (name.now, value.now)) }
{
    Ok(Item {
        key: decoded_text(alloc, name)?,
        value: Some(decoded_text(alloc, value)?),
    })
}

/// Returns `encoded`, a name or a value of a query, decoded: `+` is a space, and bytes that aren't UTF-8
/// become U+FFFD.
#[tactic(auto, unfolding(crate::specs::Queries::decoded_text))]
fn decoded_text(alloc: Global, encoded: &[u8]) -> Result<Text, AllocError>
    ensures { IfOk result (λ text. text ≡ decoded_text encoded.now) }
{
    let text = decode(alloc, encoded)?;
    Text::from_str(alloc, text.as_str())
}
