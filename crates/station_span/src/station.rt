//! The steps of a request about a station's span, in the order of refusals.

ghost use Rattle.std.specs.Prelude.{◌≡◌, ◌<◌, ◌≤◌, pos, ◌+ℤ◌, ◌-ℤ◌, ◌≤ℤ◌, length, unsigned_abs, int_lt, IsTrue, Some, IfOk, IfErr, OnOk, slice_get};
ghost use Rattle.std.specs.Option.{ForSome};
ghost use Rattle.cert_text.specs.Certificates.{IsStationName};
ghost use Rattle.event_list.specs.Shifts.{HasOffsets};
ghost use Rattle.station_table.specs.Bases.{IsBasis, basis_of, is_equal};
ghost use Rattle.station_span.specs.Sites.{
  basis_from,
  site_in,
  site_at,
  lacks_minute,
  level_unit,
  moved,
  reached,
  has_minute,
  has_span,
  span_in,
  length_in,
  mark_in,
  span_limit,
};
ghost use Rattle.station_span.specs.Workings.Finds.{FindsIn};
ghost use Rattle.station_span.specs.Workings.Spans.{HasLevels, site_with};
ghost use Rattle.year_blend.specs.Years.{year_start_of};

use crate::found_station::FoundStation;
use crate::purpose::Purpose;
use crate::station_curves::curve_over;
use crate::station_data::StationData;
use crate::station_request::StationRequest;
use decimal_text::Text;
use event_list::{Span, widened};
use harmonics_book::{Book, Station, Units, ValidBook};
use station_table::{Basis, find};
use std::alloc::Global;
use tide_fault::Refusal;
use year_blend::year_start;

/// The greatest number of minutes of a span.
const SPAN_LIMIT: i64 = 5_270_400;

/// Returns the station that `request` names, one of `stations`, with the span and mark of
/// `request`, and with the curve of its reference station. The curve covers the minutes that
/// `purpose` needs: for events, each minute at which an event can be moved into the span by the
/// offsets; for levels and the highest water, each minute that the offset moves into it.
///
/// # Errors
/// The first [`Refusal`] in this order: the station isn't found, it is a hydraulic current, its span is
/// backward, empty (for [`Purpose::Highest`]) or outside the file's years, its constants exceed a limit,
/// its span is too long, or the request has a mark but the offsets of highs and lows differ. If memory
/// runs out, [`Refusal::NoMemory`] is returned in place of any other result.
///
/// # Examples
/// ```
/// let span_request = SpanRequest {
///     begin: 15_791_040,
///     end: 15_792_480,
///     mark: None,
/// };
/// let stations = StationData::new(&book, &table);
/// let request = StationRequest::new(&name, span_request);
/// let found_station = find_station(alloc, &stations, Purpose::Events, &request)?;
/// let listed = find_events(alloc, &found_station)?;
/// assert_eq!(rt; listed.events.as_slice().len(), 4);
/// ```
#[tactic(auto, unfolding(crate::specs::Sites::site_in))]
pub fn find_station(
    alloc: Global,
    stations: &StationData<'_>,
    purpose: Purpose,
    request: &StationRequest<'_>,
) -> Result<FoundStation, Refusal>
    ensures exact { FindsIn purpose stations.now.book request.now.span_request
        (site_in purpose stations.now.book stations.now.table request.now.name request.now.span_request) result }
    ensures named { OnOk result (IsStationName request.now.name) }
{
    let basis = find_basis(stations, request.name())?;
    let book = stations.book();
    let station = station_at(book.get(), basis.station);
    find_at(alloc, book, purpose, basis, station, request)
}

/// Returns the basis of the station called `name`, one of `stations`: the index of its reference station
/// in the book, and its offsets.
///
/// # Errors
/// [`Refusal::NoStation`] if neither the book nor the table has a station called `name`, and
/// [`Refusal::NoReference`] if the table has it but the book lacks its reference station.
pub fn find_basis(stations: &StationData<'_>, name: &Text) -> Result<Basis, Refusal>
    ensures exact { result ≡ basis_from (basis_of stations.now.book stations.now.table name.now) }
    ensures valid { IfOk result (IsBasis (length stations.now.book.stations)) }
    ensures named { OnOk result (IsStationName name.now) }
{
    let table = stations.table();
    table.ranges_hold();
    match find(stations.book().get(), table, name) {
        Ok(basis) => Ok(basis),
        Err(fault) => Err(Refusal::from(fault)),
    }
}

/// Returns the station with the offsets `basis` from the reference `station`, with the span of
/// `request`.
#[tactic(auto, unfolding(crate::specs::Sites::site_at))]
fn find_at(
    alloc: Global,
    book: &ValidBook<'_>,
    purpose: Purpose,
    basis: Basis,
    station: &Station,
    request: &StationRequest<'_>,
) -> Result<FoundStation, Refusal>
    requires basis { IsBasis (length book.now.stations) basis }
    requires index { slice_get book.now.stations basis.station ≡ Some station.now }
    ensures { FindsIn purpose book.now request.now.span_request
        (site_at purpose book.now (site_with basis station.now) request.now.span_request) result }
{
    let span_request = request.span_request();
    level_units(station.units)?;
    let span = span_looked_at(book, purpose, &basis, request)?;
    let curve = curve_over(alloc, book, basis.station, station, &span)?;
    check_length(request)?;
    check_mark(&basis, request)?;
    Ok(FoundStation {
        basis,
        units: station.units,
        curve,
        purpose,
        span_request: *span_request,
        span,
    })
}

/// Returns the station at `index`, counted from 0, in the list of stations of `book`.
pub fn station_at(book: &Book, index: u32) -> &Station
    requires { index < length book.now.stations }
    ensures { slice_get book.now.stations index ≡ Some result.now }
{
    &book.stations.as_slice()[index as usize]
}

/// Returns `units` if levels can be given in these units.
///
/// # Errors
/// [`Refusal::Hydraulic`] if `units` is knots squared, the unit of a hydraulic current.
pub fn level_units(units: Units) -> Result<Units, Refusal>
    ensures exact { result ≡ level_unit units }
    ensures levels { OnOk result (HasLevels units) }
{
    match units {
        Units::Feet => Ok(Units::Feet),
        Units::Meters => Ok(Units::Meters),
        Units::Knots => Ok(Units::Knots),
        Units::KnotsSquared => Err(Refusal::Hydraulic),
    }
}

/// Returns the minutes of the reference that are evaluated, or the refusal if the harmonics file doesn't
/// have them.
#[tactic(auto, unfolding(crate::specs::Sites::span_in))]
fn span_looked_at(
    book: &ValidBook<'_>,
    purpose: Purpose,
    basis: &Basis,
    request: &StationRequest<'_>,
) -> Result<Span, Refusal>
    requires offsets { HasOffsets basis.now }
    ensures found { OnOk result (span_in purpose book.now basis.now request.now.span_request.begin request.now.span_request.end ≡ Ok tt) }
    ensures refused { IfErr result (λ refusal.
        span_in purpose book.now basis.now request.now.span_request.begin request.now.span_request.end ≡ Err refusal) }
    ensures exact { IfOk result (λ span. span ≡ reached purpose basis.now request.now.span_request.begin request.now.span_request.end) }
{
    if is_backward(request) {
        return Err(Refusal::BackwardSpan);
    }
    if lacks_minute(purpose, request) {
        return Err(Refusal::EmptySpan);
    }
    let span = reached(purpose, basis, request);
    let first = first_minute(book);
    let last = last_minute(book);
    if has_span(book, &span) {
        Ok(span)
    } else {
        Err(Refusal::OutOfYears { first, last })
    }
}

/// Returns true if the span's end is before its beginning.
fn is_backward(request: &StationRequest<'_>) -> bool
    ensures { result ≡ int_lt request.now.span_request.end request.now.span_request.begin }
{
    let span_request = request.span_request();
    span_request.end < span_request.begin
}

/// Returns true if the span is empty and a highest water is requested.
#[tactic(auto, unfolding(crate::specs::Sites::lacks_minute))]
fn lacks_minute(purpose: Purpose, request: &StationRequest<'_>) -> bool
    ensures { result ≡ lacks_minute purpose request.now.span_request.begin request.now.span_request.end }
{
    let span_request = request.span_request();
    matches!(purpose, Purpose::Highest) && span_request.end <= span_request.begin
}

/// Returns the minutes of the reference that are evaluated.
fn reached(purpose: Purpose, basis: &Basis, request: &StationRequest<'_>) -> Span
    requires offsets { HasOffsets basis.now }
    requires forward { request.now.span_request.begin ≤ℤ request.now.span_request.end }
    ensures { result ≡ reached purpose basis.now request.now.span_request.begin request.now.span_request.end }
{
    let span_request = request.span_request();
    match purpose {
        Purpose::Events => widened(basis, span_request.begin, span_request.end),
        Purpose::Levels | Purpose::Highest => moved(basis, request),
    }
}

/// Returns the minutes of the reference whose events the offsets can move into the span.
fn moved(basis: &Basis, request: &StationRequest<'_>) -> Span
    requires offsets { HasOffsets basis.now }
    requires forward { request.now.span_request.begin ≤ℤ request.now.span_request.end }
    ensures { result ≡ moved basis.now request.now.span_request.begin request.now.span_request.end }
{
    if basis.equal() {
        level_span(basis, request)
    } else {
        let span_request = request.span_request();
        widened(basis, span_request.begin, span_request.end)
    }
}

/// Returns the minutes of the reference that the offset of highs moves to minutes of the span.
fn level_span(basis: &Basis, request: &StationRequest<'_>) -> Span
    requires offsets { HasOffsets basis.now }
    requires forward { request.now.span_request.begin ≤ℤ request.now.span_request.end }
    ensures { result ≡ record { begin = request.now.span_request.begin -ℤ basis.now.high.add; end = request.now.span_request.end -ℤ basis.now.high.add } }
{
    let span_request = request.span_request();
    Span {
        begin: earlier(span_request.begin, basis.high.add),
        end: earlier(span_request.end, basis.high.add),
    }
}

/// Returns `minute` less `add` minutes. `minute` is from -20,000,000,000 to 20,000,000,000, and `add`
/// from -1,440 to 1,440.
pub fn earlier(minute: i64, add: i32) -> i64
    requires minute { unsigned_abs minute ≤ 20000000000 }
    requires add { unsigned_abs add ≤ 1440 }
    ensures { result ≡ minute -ℤ add }
{
    minute - i64::from(add)
}

/// Returns true if the first minute of `span` and its end, which isn't part of it, are in the file's
/// years or the first minute after them.
fn has_span(book: &ValidBook<'_>, span: &Span) -> bool
    ensures { result ≡ has_span book.now span.now }
{
    has_minute(book, span.begin) && has_minute(book, span.end)
}

/// Returns true if `minute` is in the file's years or the first minute after them.
fn has_minute(book: &ValidBook<'_>, minute: i64) -> bool
    ensures { result ≡ has_minute book.now minute }
{
    first_minute(book) <= minute && minute <= last_minute(book)
}

/// Returns the first minute of the file's years.
fn first_minute(book: &ValidBook<'_>) -> i64
    ensures { result ≡ year_start_of book.now.first_year }
{
    year_start(book.get().first_year)
}

/// Returns the minute after the last of the file's years.
fn last_minute(book: &ValidBook<'_>) -> i64
    ensures { result ≡ year_start_of (book.now.first_year +ℤ pos book.now.years) }
{
    let book = book.get();
    year_start(book.first_year + book.years as i32)
}

/// Returns `Ok` if the span has at most 5,270,400 minutes.
#[tactic(auto, unfolding(crate::specs::Sites::length_in))]
fn check_length(request: &StationRequest<'_>) -> Result<(), Refusal>
    ensures exact { result ≡ length_in request.now.span_request.begin request.now.span_request.end }
    ensures count_bound { OnOk result ((request.now.span_request.end -ℤ request.now.span_request.begin) ≤ℤ span_limit) }
{
    let minutes = asked_minutes(request);
    if minutes > SPAN_LIMIT {
        return Err(Refusal::SpanTooLong { minutes });
    }
    Ok(())
}

/// Returns the number of minutes of the span.
fn asked_minutes(request: &StationRequest<'_>) -> i64
    ensures { result ≡ request.now.span_request.end -ℤ request.now.span_request.begin }
{
    let span_request = request.span_request();
    span_request.end - span_request.begin
}

/// Returns `Ok` unless there is a mark and the station's highs and lows have different offsets.
fn check_mark(basis: &Basis, request: &StationRequest<'_>) -> Result<(), Refusal>
    ensures exact { result ≡ mark_in basis.now request.now.span_request.mark }
    ensures here { OnOk result (ForSome request.now.span_request.mark (λ level. IsTrue (is_equal basis.now))) }
{
    match request.span_request().mark {
        Some(_) if !basis.equal() => Err(Refusal::MarkNotHere),
        _ => Ok(()),
    }
}
