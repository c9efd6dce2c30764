//! The texts that items (arguments, or pairs of a query) give to keys.

ghost use Rattle.std.specs.Prelude.{◌≡◌, is_some};
ghost use Rattle.std.specs.Option.{option_copied};
ghost use Rattle.question.specs.Questions.{missing_key};
ghost use Rattle.question.specs.Workings.KeyTexts.{key_texts_of};

use crate::command::Command;
use crate::key::{KEYS, Key, is_needed};
use crate::origin::Origin;
use crate::pairs::Item;

/// Returns the text that `items` give to `key`: the value of the last item with the key's name.
/// Returns `None` if no item has the key's name, or if the last such item has no value.
pub fn text_for<'a>(items: &'a [Item], key: Key) -> Option<&'a str>
    ensures { option_copied result ≡ key_texts_of items.now key }
{
    let mut text = None;
    for item in items {
        if key.text() == item.key.as_str() {
            text = text_of(item);
        }
    }
    text
}

/// Returns the value of an item as text, or `None` if it has none (it is an argument without `=`).
pub fn text_of<'a>(item: &'a Item) -> Option<&'a str>
    ensures { option_copied result ≡ item.now.value }
{
    match &item.value {
        Some(text) => Some(text.as_str()),
        None => None,
    }
}

/// Returns true if `items` give a text to `key`: an item has the key's name, and the last such item
/// has a value.
pub fn has_key_text(items: &[Item], key: Key) -> bool
    ensures { result ≡ is_some (key_texts_of items.now key) }
{
    text_for(items, key).is_some()
}

/// Returns the first key, in the order of [`Key`], that `command` requires in questions from
/// `origin` and to which `items` give no text: no item has the key's name, or the last such item
/// has no value. Returns `None` if there is no such key.
pub fn missing_key(origin: Origin, command: Command, items: &[Item]) -> Option<Key>
    ensures { result ≡ missing_key origin command (key_texts_of items.now) }
{
    KEYS.iter().copied().find(|key| is_needed(origin, command, *key) && !has_key_text(items, *key))
}
