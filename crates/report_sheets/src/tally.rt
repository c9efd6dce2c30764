//! The sheet that counts events.

ghost use Rattle.std.specs.Prelude.{◌≡◌, refl, ℕ, ◌<◌, [], ◌++◌, length, All, OnOk, slice_index};
ghost use Rattle.std.specs.List.{flat_map};
ghost use Rattle.event_text.specs.Lines.{IsListed};
ghost use Rattle.event_text.specs.Words.{word_of};
ghost use Rattle.report_sheets.specs.Tallies.{count_at, count_line, names, word_index, tally_sheet};

use crate::head::Head;
use crate::layout::Layout;
use crate::sheet_of::SheetOf;
use curve_law::Event;
use decimal_text::Bytes;
use event_text::{EventWord, word};
use harmonics_book::Units;
use itoa::Buffer;
use std::alloc::{AllocError, Global};

/// The names of events in the order of their lines.
const NAMES: [EventWord; 10] = [
    EventWord::HighTide,
    EventWord::LowTide,
    EventWord::MaxFlood,
    EventWord::MinFlood,
    EventWord::MaxEbb,
    EventWord::MinEbb,
    EventWord::SlackFloodBegins,
    EventWord::SlackEbbBegins,
    EventWord::MarkRising,
    EventWord::MarkFalling,
];

/// The sheet (page of a report) called `tally`, which counts events: the station's name, and a line
/// such as `2 High Tide` for each name that at least one event has.
pub type Tally = SheetOf<TallyPage>;

/// Defines the text of the sheet (page of a report) called `tally`; see [`Tally`].
pub struct TallyPage;

impl Layout for TallyPage {
    ghost sheet = { tally_sheet };

    ghost limited = { λ _. refl };

    fn word() -> &'static str {
        "tally"
    }

    #[tactic(auto, unfolding(crate::specs::Tallies::tally_of))]
    fn text(alloc: Global, head: &Head, events: &[Event]) -> Result<Bytes, AllocError> {
        let counts = counts(head.units, events);
        let mut text = head.name_line(alloc)?;
        push_counts(&mut text, &counts)?;
        Ok(Bytes::from_vec(text))
    }
}

/// Returns the number of events with each name, by the index of the name in [`NAMES`].
fn counts(units: Units, events: &[Event]) -> [u64; 10]
    requires { All (IsListed units) events.now }
    ensures { (index : ℕ) → index < 10 → slice_index result index ≡ count_at units events.now index }
{
    let mut counts = [0; 10];
    for event in events {
        counts[place_of_event(units, event)] += 1;
    }
    counts
}

/// Returns the index in [`NAMES`] of the name of `event`.
fn place_of_event(units: Units, event: &Event) -> usize
    requires { IsListed units event.now }
    ensures value { result ≡ word_index (word_of units event.now.kind event.now.level) }
    ensures small { result < 10 }
{
    index(word(units, event.kind, event.level))
}

/// Returns the index of `word` in [`NAMES`].
fn index(word: EventWord) -> usize
    ensures value { result ≡ word_index word }
    ensures small { result < 10 }
{
    word as usize
}

/// Appends a line for each name whose count isn't 0.
fn push_counts(text: &mut Vec<u8>, counts: &[u64]) -> Result<(), AllocError>
    requires { length counts.now ≡ 10 }
    ensures { OnOk result (text.new.items
        ≡ text.old.items ++ flat_map (λ word. count_line (slice_index counts.now (word_index word)) word) names) }
{
    for word in NAMES {
        push_count(text, counts[index(word)], word)?;
    }
    Ok(())
}

/// Appends the line of a name, if its `count` isn't 0.
fn push_count(text: &mut Vec<u8>, count: u64, word: EventWord) -> Result<(), AllocError>
    ensures { OnOk result (text.new.items ≡ text.old.items ++ count_line count word) }
{
    if count == 0 {
        return Ok(());
    }
    text.extend_from_slice(Buffer::new().format(count).as_bytes())?;
    text.extend_from_slice(b" ")?;
    text.extend_from_slice(word.text().as_bytes())?;
    text.extend_from_slice(b"\n")
}
