//! The arguments of a command line as pairs.

ghost use Rattle.std.specs.Prelude.{◌≡◌, IfOk, Some, map};
ghost use Rattle.question.specs.Words.{asks_to_serve, item_of, pairs_of};

use crate::command::Command;
use crate::origin::Origin;
use crate::pairs::{Item, Items, Pairs};
use decimal_text::{Text, Words};
use std::alloc::{AllocError, Global};

/// Returns the arguments of a command line as a command with items: the first argument is the
/// command, and each other one is split at its first `=` into a key and a value. An argument
/// without `=` is a key without a value.
///
/// # Errors
/// [`AllocError`] if memory runs out.
pub fn pairs_of_words(alloc: Global, words: &Words) -> Result<Pairs, AllocError>
    ensures { IfOk result (λ pairs. pairs ≡ pairs_of words.now) }
{
    let Some((command, rest)) = words.as_slice().split_first() else {
        return Ok(Pairs {
            origin: Origin::Line,
            command: None,
            items: Items::from_vec(Vec::new(alloc)),
        });
    };
    Ok(Pairs {
        origin: Origin::Line,
        command: Some(command.copy()?),
        items: Items::from_vec(items(alloc, rest)?),
    })
}

/// Returns true if the first argument is `serve`, the command of the web server. It doesn't
/// allocate.
pub fn asks_to_serve(words: &Words) -> bool
    ensures { result ≡ asks_to_serve words.now }
{
    match words.as_slice().first() {
        Some(word) => word.as_str() == Command::Serve.text(),
        None => false,
    }
}

fn items(alloc: Global, words: &[Text]) -> Result<Vec<Item>, AllocError>
    ensures { IfOk result (λ v. v.items ≡ map item_of words.now) }
{
    let mut items = Vec::new(alloc);
    for word in words {
        items.push(item(alloc, word)?)?;
    }
    Ok(items)
}

fn item(alloc: Global, word: &Text) -> Result<Item, AllocError>
    ensures { IfOk result (λ item. item ≡ item_of word.now) }
{
    match word.as_str().split_once('=') {
        Some((key, value)) => item_with_value(alloc, key, value),
        None => Ok(Item {
            key: word.copy()?,
            value: None,
        }),
    }
}

fn item_with_value(alloc: Global, key: &str, value: &str) -> Result<Item, AllocError>
    ensures { IfOk result (λ item. item ≡ record { key = key.now; value = Some value.now }) }
{
    Ok(Item {
        key: Text::from_str(alloc, key)?,
        value: Some(Text::from_str(alloc, value)?),
    })
}
