//! The counts of a trial.

ghost use Rattle.std.specs.Prelude.{
  ◌≡◌,
  ◌*◌,
  ◌<◌,
  ◌≤◌,
  ◌^◌,
  ◌++◌,
  codes,
  decimal,
  length,
  sum_by,
  option_to_list,
  IfOk,
  OnOk,
  string_bytes,
};
ghost use Rattle.event_list.specs.Events.{span_minutes, cells_in, tracks_of as tracks_in};
ghost use Rattle.tide_answer.specs.Trials.{accepted_if, nothing, number_line, plus, quiet_in, quiet_one, tally_by, trial_text};
ghost use Rattle.station_span.specs.Workings.Spans.{IsSpanInRange};
ghost use Rattle.tide_answer.specs.Workings.Tallies.{IsUpTo};

use curve_law::{Cell, Cells, Events, Tracks};
use decimal_text::Bytes;
use event_list::Span;
use station_span::{Rejection, cell_count};
use std::alloc::{AllocError, Global};

/// The counts that the command `trial` makes at one station, or their sums over several stations.
#[derive(Clone, Copy)]
pub struct Tally {
    /// The number of minutes that were searched for events, counted once for each track (high and low
    /// waters, slack waters).
    pub minutes: u128,
    /// The number of predicted events.
    pub events: u128,
    /// The number of cells (stretches of minutes with at most one event) of all tracks together.
    pub cells: u128,
    /// The number of cells that have several minutes and no event.
    pub quiet: u128,
    /// The number of certificates that the command `check` would accept.
    pub accepted: u128,
}

impl Tally {
    /// Returns counts that are all 0.
    pub fn nothing() -> Tally
        ensures { result ≡ nothing }
    {
        Tally {
            minutes: 0,
            events: 0,
            cells: 0,
            quiet: 0,
            accepted: 0,
        }
    }

    /// Returns the sums of these counts and the counts `one` of a station. Before the call, these are at
    /// most 2^100 each, and the counts `one` at most 2^66 each.
    #[tactic(auto, unfolding(crate::specs::Trials::plus))]
    pub fn plus(self, one: Tally) -> Tally
        requires sum { IsUpTo (2 ^ 100) self }
        requires one { IsUpTo (2 ^ 66) one }
        ensures { result ≡ plus self one }
    {
        Tally {
            minutes: self.minutes + one.minutes,
            events: self.events + one.events,
            cells: self.cells + one.cells,
            quiet: self.quiet + one.quiet,
            accepted: self.accepted + one.accepted,
        }
    }

    /// Returns the counts of one station. `span` has the minutes that were searched, `tracks` the cells
    /// found in them, and `events` the predicted events; `rejection` is the fault that checking the
    /// certificate found, or `None` if it is accepted.
    #[tactic(auto, unfolding(crate::specs::Trials::tally_by))]
    pub fn of(span: &Span, tracks: &Tracks, events: &Events, rejection: Option<Rejection>) -> Tally
        requires in_range { IsSpanInRange span.now }
        requires count_bound { cells_in tracks.now < 2 ^ 64 }
        ensures exact { result ≡ tally_by span.now tracks.now events.now rejection }
        ensures count_bound { IsUpTo (2 ^ 66) result }
    {
        Tally {
            minutes: minutes_of(span, tracks),
            events: events.as_slice().len() as u128,
            cells: u128::from(cell_count(tracks)),
            quiet: u128::from(quiet_count(tracks)),
            accepted: accepted_count(rejection),
        }
    }
}

/// Returns the number of tracks times the minutes of `span`.
fn minutes_of(span: &Span, tracks: &Tracks) -> u128
    requires { IsSpanInRange span.now }
    ensures exact { result ≡ span_minutes span.now * length (tracks_in tracks.now) }
    ensures count_bound { result ≤ 2 ^ 64 }
{
    u128::from(span_minutes(span)) * u128::from(track_count(tracks))
}

/// Returns the number of minutes of `span`.
fn span_minutes(span: &Span) -> u64
    requires { IsSpanInRange span.now }
    ensures exact { result ≡ span_minutes span.now }
    ensures count_bound { result ≤ 200000000000 }
{
    (span.end - span.begin).unsigned_abs()
}

/// Returns the number of tracks.
fn track_count(tracks: &Tracks) -> u32
    ensures exact { result ≡ length (tracks_in tracks.now) }
    ensures count_bound { result ≤ 3 }
{
    1 + u32::from(tracks.slack.is_some()) + u32::from(tracks.mark.is_some())
}

/// Returns the number of quiet cells of all tracks.
fn quiet_count(tracks: &Tracks) -> u128
    ensures exact { result ≡ sum_by quiet_in (tracks_in tracks.now) }
    ensures count_bound { result ≤ 2 ^ 66 }
{
    quiet_of(&tracks.turn) + quiet_if_followed(&tracks.slack) + quiet_if_followed(&tracks.mark)
}

/// Returns the number of quiet cells of a track that may be absent.
fn quiet_if_followed(cells: &Option<Cells>) -> u128
    ensures exact { result ≡ sum_by quiet_in (option_to_list cells.now) }
    ensures count_bound { result < 2 ^ 64 }
{
    match cells {
        Some(cells) => quiet_of(cells),
        None => 0,
    }
}

/// Returns the number of quiet cells of a track.
fn quiet_of(cells: &Cells) -> u128
    ensures exact { result ≡ quiet_in cells.now }
    ensures count_bound { result < 2 ^ 64 }
{
    let mut quiet: u64 = 0;
    for cell in cells.as_slice() {
        quiet += quiet_one(*cell);
    }
    u128::from(quiet)
}

/// Returns 1 if `cell` is quiet, and 0 otherwise.
fn quiet_one(cell: Cell) -> u64
    ensures exact { result ≡ quiet_one cell }
    ensures count_bound { result ≤ 1 }
{
    match cell {
        Cell::Quiet(_) => 1,
        Cell::Still | Cell::Turn(..) => 0,
    }
}

/// Returns 1 if there is no rejection, and 0 otherwise.
fn accepted_count(rejection: Option<Rejection>) -> u128
    ensures exact { result ≡ accepted_if rejection }
    ensures count_bound { result ≤ 1 }
{
    match rejection {
        None => 1,
        Some(_) => 0,
    }
}

/// Returns the lines that the command `trial` prints for the seed `seed` and the summed counts
/// `sum`.
///
/// # Errors
/// [`AllocError`] if memory runs out.
#[tactic(auto, unfolding(crate::specs::Trials::trial_text))]
pub fn tally_text(alloc: Global, seed: u64, sum: Tally) -> Result<Bytes, AllocError>
    requires { IsUpTo (2 ^ 100) sum }
    ensures { IfOk result (λ text. text ≡ trial_text seed sum) }
{
    let mut text = String::new(alloc);
    push_line(alloc, &mut text, "seed", u128::from(seed))?;
    push_line(alloc, &mut text, "stations", 40)?;
    push_line(alloc, &mut text, "minutes", sum.minutes)?;
    push_line(alloc, &mut text, "events", sum.events)?;
    push_line(alloc, &mut text, "cells", sum.cells)?;
    push_line(alloc, &mut text, "quiet", sum.quiet)?;
    push_line(alloc, &mut text, "accepted", sum.accepted)?;
    Ok(Bytes::from_vec(text.into_bytes()))
}

/// Appends the line of `what` and its `number`.
fn push_line(alloc: Global, text: &mut String, what: &str, number: u128) -> Result<(), AllocError>
    ensures { OnOk result (string_bytes text.new ≡ string_bytes text.old ++ number_line what.now number) }
{
    text.push_str(what)?;
    let end = format!(in alloc; " {number}\n")?;
    text.push_str(end.as_str())
}
