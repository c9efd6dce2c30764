//! The cells of a station's curves.

ghost use Rattle.std.specs.Prelude.{◌≡◌, ◌<◌, ◌^◌, length, option_map, option_to_list, sum_by, IfOk};
ghost use Rattle.std.specs.Option.{ForSome};
ghost use Rattle.event_list.specs.Events.{cover_over, covers_of, cells_in};
ghost use Rattle.event_list.specs.FreshCurves.{IsFreshOver};

use curve_law::{Cells, Curve, Tracks};
use event_list::Span;
use interval_search::search;
use std::alloc::{AllocError, Global};

/// Returns the cells of each curve over `span` (`slack` and `mark` only if present). A cell is a
/// stretch of minutes without an event, or one minute that may have an event; cells are found by
/// halving. Each curve has a value at each minute of `span` and at its end, and hasn't been
/// evaluated yet.
///
/// # Errors
/// [`AllocError`] if memory runs out.
pub fn tracks_over<A: Curve + Drop, B: Curve + Drop>(
    alloc: Global,
    turn: A,
    slack: Option<B>,
    mark: Option<B>,
    span: &Span,
) -> Result<Tracks, AllocError>
    requires turn { IsFreshOver span.now (A.state turn) }
    requires slack { ForSome slack (λ c. IsFreshOver span.now (B.state c)) }
    requires mark { ForSome mark (λ c. IsFreshOver span.now (B.state c)) }
    ensures { IfOk result (λ tracks. tracks ≡ covers_of (record {
      turn = (A.state turn).curve_model.curve_spec;
      slack = option_map (λ c. (B.state c).curve_model.curve_spec) slack;
      mark = option_map (λ c. (B.state c).curve_model.curve_spec) mark;
    }) span.now) }
{
    let turn = cells_over(alloc, turn, span)?;
    let slack = cells_if_followed(alloc, slack, span)?;
    let mark = cells_if_followed(alloc, mark, span)?;
    Ok(Tracks { turn, slack, mark })
}

/// Returns the cells of `curve` over `span`.
fn cells_over<C: Curve + Drop>(alloc: Global, curve: C, span: &Span) -> Result<Cells, AllocError>
    requires { IsFreshOver span.now (C.state curve) }
    ensures { IfOk result (λ cells. cells ≡ cover_over span.now (C.state curve).curve_model.curve_spec) }
{
    let mut curve = curve;
    search(alloc, &mut curve, span.begin, span.end)
}

/// Returns the cells of an optional curve.
fn cells_if_followed<C: Curve + Drop>(
    alloc: Global,
    curve: Option<C>,
    span: &Span,
) -> Result<Option<Cells>, AllocError>
    requires { ForSome curve (λ c. IsFreshOver span.now (C.state c)) }
    ensures { IfOk result (λ cells. cells ≡ option_map (λ c. cover_over span.now (C.state c).curve_model.curve_spec) curve) }
{
    match curve {
        Some(curve) => Ok(Some(cells_over(alloc, curve, span)?)),
        None => Ok(None),
    }
}

/// Returns the number of cells of all `tracks` together, which is below 2^64.
#[tactic(auto, unfolding(event_list::specs::Events::cells_in))]
pub fn cell_count(tracks: &Tracks) -> u64
    requires { cells_in tracks.now < 2 ^ 64 }
    ensures { result ≡ cells_in tracks.now }
{
    count_of(&tracks.turn) + count_if_followed(&tracks.slack) + count_if_followed(&tracks.mark)
}

/// Returns the number of `cells`.
fn count_of(cells: &Cells) -> u64
    ensures { result ≡ length cells.now }
{
    cells.as_slice().len() as u64
}

/// Returns the number of cells of a track that may be absent.
fn count_if_followed(cells: &Option<Cells>) -> u64
    ensures { result ≡ sum_by length (option_to_list cells.now) }
{
    match cells {
        Some(cells) => count_of(cells),
        None => 0,
    }
}
