//! The events of a station over a span, and the cells in which they are found.

ghost use Rattle.std.specs.Prelude.{◌≡◌, ◌+◌, length, option_map, IsTrue, IfOk, OnOk};
ghost use Rattle.std.specs.Option.{ForSome};
ghost use Rattle.cert_text.specs.Certificates.{IsStationName};
ghost use Rattle.event_list.specs.Events.{cover_over};
ghost use Rattle.event_list.specs.Merging.{cells_left};
ghost use Rattle.event_list.specs.FreshCurves.{IsFreshOver};
ghost use Rattle.station_table.specs.Bases.{is_plain};
ghost use Rattle.station_span.specs.Following.{cells_of, events_of, tracks_of};
ghost use Rattle.station_span.specs.Sites.{site_in};
ghost use Rattle.station_span.specs.Workings.Finds.{AreReferences, IsSiteList, Lists, site_of};

use crate::curves::{mark_curve, slack_curve, turn_curve};
use crate::found_station::FoundStation;
use crate::purpose::Purpose;
use crate::station::find_station;
use crate::station_data::StationData;
use crate::station_request::StationRequest;
use curve_law::{Curve, Events};
use event_list::{Merge, Span, shifted};
use harmonics_book::Units;
use interval_search::Search;
use rate_bound::{MarkCurve, TurnCurve, Version};
use std::alloc::{AllocError, Global};
use tide_fault::Refusal;

/// The events of a station over a span, the unit of their levels, and the number of cells (stretches of
/// minutes with at most one event) that the search for them produced.
#[derive(Drop)]
pub struct FoundEvents {
    pub units: Units,
    pub events: Events,
    /// The number of cells of all searches (high and low waters, slack waters, mark) together.
    pub cells: u64,
}

/// Returns the events of the station that `request` names, one of `stations`, over the span of
/// `request`.
///
/// # Errors
/// The first [`Refusal`] in this order: the station isn't found, it is a hydraulic current, its span is
/// backward or outside the file's years, its constants exceed a limit, its span is too long, or the
/// request has a mark but the offsets of highs and lows differ. If memory runs out,
/// [`Refusal::NoMemory`] is returned in place of any other result.
pub fn list_station(
    alloc: Global,
    stations: &StationData<'_>,
    request: &StationRequest<'_>,
) -> Result<FoundEvents, Refusal>
    ensures exact { Lists stations.now.book request.now.span_request
        (site_in Purpose.Events stations.now.book stations.now.table request.now.name request.now.span_request) result }
    ensures named { OnOk result (IsStationName request.now.name) }
{
    let found_station = find_station(alloc, stations, Purpose::Events, request)?;
    Ok(find_events(alloc, &found_station)?)
}

/// Returns the events of the station `found_station` over the span of its request. `found_station`
/// is a result of [`find_station`](crate::find_station) for [`Purpose::Events`], so its curve has
/// each minute at which an event can be moved into the span by the offsets.
///
/// # Examples
/// ```
/// let stations = StationData::new(&book, &table);
/// let request = StationRequest::new(&name, span_request);
/// let found_station = find_station(alloc, &stations, Purpose::Events, &request)?;
/// let listed = find_events(alloc, &found_station)?;
/// assert_eq!(rt; listed.events.as_slice().len(), 4);
/// ```
pub fn find_events(alloc: Global, found_station: &FoundStation) -> Result<FoundEvents, AllocError>
    requires { found_station.now.purpose ≡ Purpose.Events }
    ensures { IfOk result (λ listed. IsSiteList found_station.now.curve.book found_station.now.span_request (site_of found_station.now) listed) }
{
    let mut merge = merge_of(found_station);
    let merged = merged_events(alloc, &mut merge)?;
    let events = shifted_events(alloc, merged, found_station)?;
    Ok(FoundEvents {
        units: found_station.units,
        events,
        cells: merge.cells(),
    })
}

/// Returns all remaining events of `merge`.
fn merged_events<'a>(
    alloc: Global,
    merge: &mut Merge<TurnCurve<'a>, MarkCurve<'a>>,
) -> Result<Events, AllocError>
    ensures events { IfOk result (λ events. events ≡ merge.old.remaining) }
    ensures cells { OnOk result (merge.new.cells ≡ merge.old.all) }
{
    let mut events = Vec::new(alloc);
    while let Some(event) = merge.next() {
        events.push(event)?;
    }
    Ok(Events::from_vec(events))
}

/// Returns the station's events, made from the events `merged` of its reference.
fn shifted_events(
    alloc: Global,
    merged: Events,
    found_station: &FoundStation,
) -> Result<Events, AllocError>
    requires purpose { found_station.now.purpose ≡ Purpose.Events }
    requires merged { AreReferences found_station.now merged }
    ensures { IfOk result (λ events. events ≡ events_of found_station.now.curve.book (site_of found_station.now) found_station.now.span_request) }
{
    if found_station.basis.plain() {
        Ok(merged)
    } else {
        shifted(
            alloc,
            &merged,
            &found_station.basis,
            found_station.span_request.begin,
            found_station.span_request.end,
        )
    }
}

/// Returns a merge of the events of the reference station of `found_station`, over the minutes at
/// which an event can be moved into the requested span by the offsets. It yields one event at a
/// time, in listing order, and doesn't allocate. Its searches have returned none of their cells yet
/// (`cells` is 0, and `all` counts them). If the station has no offsets, its events are the
/// reference's. `found_station` is a result of [`find_station`](crate::find_station) for
/// [`Purpose::Events`].
pub fn merge_of<'a>(found_station: &'a FoundStation) -> Merge<TurnCurve<'a>, MarkCurve<'a>>
    requires { found_station.now.purpose ≡ Purpose.Events }
    ensures remaining { AreReferences found_station.now result.remaining }
    ensures plain { IsTrue (is_plain found_station.now.basis) → result.remaining ≡ events_of found_station.now.curve.book (site_of found_station.now) found_station.now.span_request }
    ensures cells { result.cells ≡ 0 }
    ensures all { result.all ≡ cells_of found_station.now.curve.book (site_of found_station.now) found_station.now.span_request }
{
    Merge::new(
        turn_search(found_station),
        slack_search(found_station),
        mark_search(found_station),
    )
}

/// Returns the search for the high and low waters of the reference station of `found_station` (for
/// a current, its greatest and least streams), from the first minute of its curve on (`at`). The
/// search evaluates the curve at most once per cell, plus once (`most`). `found_station` was found
/// for [`Purpose::Events`], so its curve has each minute at which an event can be moved into the
/// requested span by the offsets.
pub fn turn_search<'a>(found_station: &'a FoundStation) -> Search<TurnCurve<'a>>
    requires { found_station.now.purpose ≡ Purpose.Events }
    ensures at { result.at ≡ found_station.now.span.begin }
    ensures remaining { result.remaining ≡ (tracks_of found_station.now.curve.book (site_of found_station.now) found_station.now.span_request).turn }
    ensures most { result.most ≡ length result.remaining + 1 }
{
    Search::new(
        turn_curve(found_station, Version::Second),
        found_station.span.begin,
        found_station.span.end,
    )
}

/// Returns the search for the slack waters of the reference station of `found_station`, from the
/// first minute of its curve on (`at`), or `None` if the station isn't a current, or has different
/// offsets for highs and lows and none for slack waters. The search evaluates the curve at most
/// once per cell, plus once (`most`). `found_station` was found for [`Purpose::Events`], so its
/// curve has each minute at which an event can be moved into the requested span by the offsets.
pub fn slack_search<'a>(found_station: &'a FoundStation) -> Option<Search<MarkCurve<'a>>>
    requires { found_station.now.purpose ≡ Purpose.Events }
    ensures at { ForSome result (λ search. search.at ≡ found_station.now.span.begin) }
    ensures remaining { cells_left result ≡ (tracks_of found_station.now.curve.book (site_of found_station.now) found_station.now.span_request).slack }
    ensures most { ForSome result (λ search. search.most ≡ length search.remaining + 1) }
{
    search_if(
        slack_curve(found_station, Version::Second),
        &found_station.span,
    )
}

/// Returns the search for the minutes of the reference station at which the level of
/// `found_station` crosses the mark of its request, from the first minute of its curve on (`at`),
/// or `None` if the request has no mark. The search evaluates the curve at most once per cell, plus
/// once (`most`). `found_station` was found for [`Purpose::Events`], so its curve has each minute
/// at which an event can be moved into the requested span by the offsets.
pub fn mark_search<'a>(found_station: &'a FoundStation) -> Option<Search<MarkCurve<'a>>>
    requires { found_station.now.purpose ≡ Purpose.Events }
    ensures at { ForSome result (λ search. search.at ≡ found_station.now.span.begin) }
    ensures remaining { cells_left result ≡ (tracks_of found_station.now.curve.book (site_of found_station.now) found_station.now.span_request).mark }
    ensures most { ForSome result (λ search. search.most ≡ length search.remaining + 1) }
{
    search_if(
        mark_curve(found_station, Version::Second),
        &found_station.span,
    )
}

/// Returns the search for the cells of `curve`, or `None` if there is no curve.
fn search_if<C: Curve>(curve: Option<C>, span: &Span) -> Option<Search<C>>
    requires { ForSome curve (λ c. IsFreshOver span.now (C.state c)) }
    ensures at { ForSome result (λ search. search.at ≡ span.now.begin) }
    ensures remaining { cells_left result ≡ option_map (λ c. cover_over span.now (C.state c).curve_model.curve_spec) curve }
    ensures most { ForSome result (λ search. search.most ≡ length search.remaining + 1) }
{
    match curve {
        Some(curve) => Some(Search::new(curve, span.begin, span.end)),
        None => None,
    }
}
