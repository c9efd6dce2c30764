//! Reading a command and its items as a question.

ghost use Rattle.std.specs.Prelude.{◌≡◌, ◌+◌, ◌++◌, [], ◌∷◌, length, IfOk, OnOk};
ghost use Rattle.decimal_text.specs.Expected.{EqualsUnlessNoMemory};
ghost use Rattle.question.specs.Asked.{IsAsked, NamesFiles};
ghost use Rattle.question.specs.Questions.{is_out_of_memory, no_key_texts, question_from, command_of, with_item, with_items, question_of, question_with};
ghost use Rattle.question.specs.Workings.KeyTexts.{key_texts_of, Makes};

use crate::asked::{bare_question, put_value};
use crate::command::{Command, command_named};
use crate::fault::AskFault;
use crate::key::key_named;
use crate::key_texts::{has_key_text, missing_key, text_of};
use crate::origin::Origin;
use crate::pairs::{Item, Items, Pairs};
use crate::question::Question;
use decimal_text::Text;
use std::alloc::Global;

/// Returns the question that `pairs`, a command and its items (arguments, or pairs of a query),
/// make.
///
/// # Errors
/// The first of these: [`AskFault::NoCommand`] (`pairs` has no command) or
/// [`AskFault::UnknownCommand`] (a question of this origin can't have a command with this name);
/// then for each item, from the left, [`AskFault::NotAPair`] (it has no value),
/// [`AskFault::UnknownKey`] (the command doesn't have the key in a question of this origin),
/// [`AskFault::RepeatedKey`] (an earlier item has the key) or [`AskFault::BadValue`] (the value
/// doesn't have the key's form); then [`AskFault::MissingKey`] with the first key, in the order of
/// [`Key`](crate::Key), that is required and missing. [`AskFault::NoMemory`] if memory runs out.
///
/// # Examples
/// ```
/// let mut words = Vec::new(rt.alloc());
/// for word in ["predict", "file=pier.txt", "station=Pier"] {
///     words.push(Text::from_str(rt.alloc(), word)?)?;
/// }
/// let pairs = pairs_of_words(rt.alloc(), &Words::from_vec(words))?;
/// let fault = read_question(rt.alloc(), &pairs).err();
/// assert_eq!(rt; fault, Some(AskFault::MissingKey(Key::Begin)));
/// ```
#[tactic(auto, unfolding(crate::specs::Questions::question_of))]
pub fn read_question(alloc: Global, pairs: &Pairs) -> Result<Question, AskFault>
    ensures exact { EqualsUnlessNoMemory is_out_of_memory (question_of pairs.now) result }
    ensures asked { IfOk result IsAsked }
    ensures named { IfOk result (NamesFiles pairs.now.origin) }
{
    let command = read_command(pairs.origin, &pairs.command)?;
    read_items(alloc, pairs.origin, command, &pairs.items)
}

/// Returns the question of `command` with `items` (arguments, or pairs of a query) from `origin`.
///
/// # Errors
/// The first of these: for each item, from the left, [`AskFault::NotAPair`] (it has no value),
/// [`AskFault::UnknownKey`] (`command` doesn't have the key in a question from `origin`),
/// [`AskFault::RepeatedKey`] (an earlier item has the key) or [`AskFault::BadValue`] (the value
/// doesn't have the key's form); then [`AskFault::MissingKey`] with the first key, in the order of
/// [`Key`](crate::Key), that is required and missing. [`AskFault::NoMemory`] if memory runs out.
pub fn read_items(
    alloc: Global,
    origin: Origin,
    command: Command,
    items: &Items,
) -> Result<Question, AskFault>
    ensures exact { EqualsUnlessNoMemory is_out_of_memory (question_with origin command items.now) result }
    ensures asked { IfOk result IsAsked }
    ensures named { IfOk result (NamesFiles origin) }
{
    let question = read_fields(alloc, origin, command, items)?;
    Ok(question)
}

fn read_fields(
    alloc: Global,
    origin: Origin,
    command: Command,
    items: &Items,
) -> Result<Question, AskFault>
    ensures { EqualsUnlessNoMemory is_out_of_memory (question_with origin command items.now) result }
{
    let mut question = bare_question(command);
    let read = fill(alloc, origin, command, items.as_slice(), &mut question);
    read.and(Ok(question))
}

fn read_command(origin: Origin, word: &Option<Text>) -> Result<Command, AskFault>
    ensures { result ≡ command_of origin word.now }
{
    match word {
        None => Err(AskFault::NoCommand),
        Some(word) => command_named(origin, word.as_str()).ok_or(AskFault::UnknownCommand),
    }
}

/// Puts the values of `items` into `question`, in which no key is given, and checks that no
/// required key is missing.
fn fill(
    alloc: Global,
    origin: Origin,
    command: Command,
    items: &[Item],
    question: &mut Question,
) -> Result<(), AskFault>
    requires { question.old ≡ question_from origin command no_key_texts }
    ensures { Makes (question_with origin command items.now) question.new result }
{
    read_values(alloc, origin, command, items, question)?;
    match missing_key(origin, command, items) {
        None => Ok(()),
        Some(key) => Err(AskFault::MissingKey(key)),
    }
}

fn read_values(
    alloc: Global,
    origin: Origin,
    command: Command,
    items: &[Item],
    question: &mut Question,
) -> Result<(), AskFault>
    requires { question.old ≡ question_from origin command no_key_texts }
    ensures key_texts { Makes (with_items origin command 1 items.now no_key_texts) (key_texts_of items.now) result }
    ensures asked { OnOk result (question.new ≡ question_from origin command (key_texts_of items.now)) }
{
    for (at, item) in items.iter().enumerate() {
        read_value(alloc, origin, command, &items[..at], item, question)?;
    }
    Ok(())
}

/// Puts the value of `item` into `question`, which has the values of the items `earlier`. The fault
/// of an item has its number, counted from 1.
#[tactic(auto, unfolding(crate::specs::Questions::with_item))]
fn read_value(
    alloc: Global,
    origin: Origin,
    command: Command,
    earlier: &[Item],
    item: &Item,
    question: &mut Question,
) -> Result<(), AskFault>
    requires { question.old ≡ question_from origin command (key_texts_of earlier.now) }
    ensures key_texts { Makes (with_item origin command (length earlier.now + 1) item.now (key_texts_of earlier.now))
        (key_texts_of (earlier.now ++ item.now ∷ [])) result }
    ensures asked { OnOk result (question.new ≡ question_from origin command (key_texts_of (earlier.now ++ item.now ∷ []))) }
{
    let item_number = earlier.len() as u64 + 1;
    let Some(text) = text_of(item) else {
        return Err(AskFault::NotAPair(item_number));
    };
    let Some(key) = key_named(origin, command, item.key.as_str()) else {
        return Err(AskFault::UnknownKey(item_number));
    };
    if has_key_text(earlier, key) {
        return Err(AskFault::RepeatedKey(item_number));
    }
    let is_read = put_value(alloc, origin, key, text, question)?;
    if is_read {
        Ok(())
    } else {
        Err(AskFault::BadValue(item_number))
    }
}
