//! The events in a track's cells.

ghost use Rattle.std.specs.Prelude.{◌≡◌, ◌^◌, ◌≤◌, ◌++◌, unsigned_abs, flat_map, option_to_list, IfOk, OnOk};
ghost use Rattle.std.specs.Option.{ForSome};
ghost use Rattle.curve_law.specs.Cells.{minutes_of, event_in, all_minutes, cell_events};

use curve_law::{Cell, Cells, Event, Events};
use std::alloc::{AllocError, Global};

/// Returns the events in `cells`, the cells of one track (consecutive minutes, each cell with one event
/// or none). The first cell begins at the minute `begin`, counted from 1970-01-01T00:00Z, from -10^12
/// to 10^12, and the cells have at most 6,000,000 minutes together.
///
/// The program doesn't call this function: it lists the events of all tracks together, with
/// [`merged`](crate::merged).
///
/// # Errors
/// [`AllocError`] if memory runs out.
pub fn track_events(alloc: Global, cells: &Cells, begin: i64) -> Result<Events, AllocError>
    requires count_bound { all_minutes cells.now ≤ 6000000 }
    requires begin { unsigned_abs begin ≤ 10 ^ 12 }
    ensures { IfOk result (λ events. events ≡ cell_events begin cells.now) }
{
    let mut events = Vec::new(alloc);
    add_track_events(&mut events, cells, begin)?;
    Ok(Events::from_vec(events))
}

/// Appends to `events` the events in `cells`, the cells of one track (consecutive minutes, each
/// cell with one event or none). The first cell begins at the minute `begin`, counted from
/// 1970-01-01T00:00Z, from -10^12 to 10^12, and the cells have at most 6,000,000 minutes together.
///
/// # Errors
/// [`AllocError`] if memory runs out.
pub fn add_track_events(
    events: &mut Vec<Event>,
    cells: &Cells,
    begin: i64,
) -> Result<(), AllocError>
    requires count_bound { all_minutes cells.now ≤ 6000000 }
    requires begin { unsigned_abs begin ≤ 10 ^ 12 }
    ensures { OnOk result (events.new.items ≡ events.old.items ++ cell_events begin cells.now) }
{
    let mut at = begin;
    for cell in cells.as_slice() {
        add_event(events, at, *cell)?;
        at += i64::from(minutes(*cell));
    }
    Ok(())
}

/// Appends the event in `cell`, if there is one.
fn add_event(events: &mut Vec<Event>, minute: i64, cell: Cell) -> Result<(), AllocError>
    ensures { OnOk result (events.new.items ≡ events.old.items ++ event_in minute cell) }
{
    if let Cell::Turn(kind, level) = cell {
        events.push(Event {
            minute,
            kind,
            level,
        })?;
    }
    Ok(())
}

/// Appends to `events` the events in `cells`, the cells of one track (consecutive minutes, each
/// cell with one event or none), or nothing if `cells` is `None`. The first cell begins at the
/// minute `begin`, counted from 1970-01-01T00:00Z, from -10^12 to 10^12, and the cells have at most
/// 6,000,000 minutes together.
///
/// # Errors
/// [`AllocError`] if memory runs out.
pub fn add_followed_events(
    events: &mut Vec<Event>,
    cells: &Option<Cells>,
    begin: i64,
) -> Result<(), AllocError>
    requires count_bound { ForSome cells.now (λ cells. all_minutes cells ≤ 6000000) }
    requires begin { unsigned_abs begin ≤ 10 ^ 12 }
    ensures { OnOk result (events.new.items ≡ events.old.items ++ flat_map (cell_events begin) (option_to_list cells.now)) }
{
    match cells {
        Some(cells) => add_track_events(events, cells, begin),
        None => Ok(()),
    }
}

/// Returns the number of minutes of `cell`.
fn minutes(cell: Cell) -> u32
    ensures { result ≡ minutes_of cell }
{
    match cell {
        Cell::Quiet(n) => n,
        Cell::Still | Cell::Turn(..) => 1,
    }
}
