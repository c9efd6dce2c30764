//! The answer of the command `heights`: the levels of a station in a span at even steps of time.

ghost use Rattle.std.specs.Prelude.{◌≡◌, ◌≤◌, ◌+ℤ◌, ◌*ℤ◌, ◌-ℤ◌, pos, negsuc, All, unsigned_abs, Ok, Err, IfOk, OnOk};
ghost use Rattle.decimal_text.specs.Expected.{EqualsUnlessNoMemory};
ghost use Rattle.tide_answer.specs.Answers.{heights, row_at, row_count, row_limit, rows_in, rows_of};
ghost use Rattle.tide_fault.specs.Faults.{refusal_is_out_of_memory};
ghost use Rattle.tide_answer.specs.Workings.Rows.{IsStep};
ghost use Rattle.station_span.specs.Workings.Finds.{AreEvaluable, IsEvaluable, site_of};
ghost use Rattle.zone_time.specs.Zones.{InZoneYears};

use crate::text::{Answer, text_alone};
use listing::{Row, Rows, heights_text};
use question::Layout;
use station_span::{
    FoundStation, Purpose, StationData, StationRequest, check_level, find_station, level_at,
};
use std::alloc::{AllocError, Global};
use tide_fault::Refusal;
use zone_time::ZoneClock;

/// The greatest number of rows of a list of heights.
const ROW_LIMIT: u64 = 100_000;

/// Returns the levels (the command `heights`) of the station that `request` names, one every `step`
/// minutes from the beginning of the span on. The minute at the span's end has a row if a step leads to
/// it. `step` is from 1 to 44,640.
///
/// # Errors
/// The first [`Refusal`] in this order: the station isn't found, it is a hydraulic current, the span is
/// backward or outside the file's years, the station's constants exceed a limit ([`Refusal::TooLarge`]
/// or [`Refusal::TooSteep`]), the span is longer than 5,270,400 minutes, the offsets of the station's
/// high and low waters differ ([`Refusal::MarkNotHere`] if the request has a mark, else
/// [`Refusal::LevelNotHere`]), or there are more than 100,000 rows ([`Refusal::TooManyRows`]).
#[tactic(auto, unfolding(crate::specs::Answers::heights))]
pub fn list_heights(
    alloc: Global,
    stations: &StationData<'_>,
    request: &StationRequest<'_>,
    step: i64,
    layout: Layout,
    zone: &ZoneClock<'_>,
) -> Result<Answer, Refusal>
    requires step { IsStep step }
    ensures { EqualsUnlessNoMemory refusal_is_out_of_memory
        (heights stations.now.book stations.now.table request.now.name request.now.span_request step layout zone.now) result }
{
    let found_station = find_station(alloc, stations, Purpose::Levels, request)?;
    check_level(&found_station)?;
    check_rows(&found_station, step)?;
    let rows = rows_of(alloc, &found_station, step)?;
    let text = heights_text(
        alloc,
        layout,
        request.name(),
        found_station.units,
        &rows,
        zone.zone(),
    )?;
    Ok(text_alone(text))
}

/// Returns `Ok` if the list has at most 100,000 rows.
#[tactic(auto, unfolding(crate::specs::Answers::rows_in))]
fn check_rows(found_station: &FoundStation, step: i64) -> Result<(), Refusal>
    requires step { IsStep step }
    ensures exact { result ≡ rows_in found_station.now.span_request.begin found_station.now.span_request.end step }
    ensures count_bound { OnOk result (row_count found_station.now.span_request.begin found_station.now.span_request.end step ≤ row_limit) }
{
    let rows = row_count(found_station, step);
    if rows > ROW_LIMIT {
        return Err(Refusal::TooManyRows { rows: rows as i64 });
    }
    Ok(())
}

/// Returns the number of rows of the requested span, one every `step` minutes; the span's end has a row
/// if a step leads to it.
fn row_count(found_station: &FoundStation, step: i64) -> u64
    requires step { IsStep step }
    ensures exact { result ≡ row_count found_station.now.span_request.begin found_station.now.span_request.end step }
    ensures count_bound { result ≤ 40000000001 }
{
    asked_minutes(found_station) / step.unsigned_abs() + 1
}

/// Returns the number of minutes from the first minute of the requested span to its end.
fn asked_minutes(found_station: &FoundStation) -> u64
    ensures exact { result ≡ unsigned_abs (found_station.now.span_request.end -ℤ found_station.now.span_request.begin) }
    ensures count_bound { result ≤ 40000000000 }
{
    (found_station.span_request.end - found_station.span_request.begin).unsigned_abs()
}

/// Returns the rows of the requested span, one every `step` minutes.
fn rows_of(alloc: Global, found_station: &FoundStation, step: i64) -> Result<Rows, AllocError>
    requires step { IsStep step }
    requires levels { AreEvaluable found_station.now }
    requires count_bound { row_count found_station.now.span_request.begin found_station.now.span_request.end step ≤ row_limit }
    ensures exact { IfOk result (λ rows. rows
        ≡ rows_of found_station.now.curve.book (site_of found_station.now) found_station.now.span_request.begin found_station.now.span_request.end step) }
    ensures listed { IfOk result (λ rows. All (λ row. InZoneYears row.minute) rows) }
{
    let mut rows = Vec::new(alloc);
    for index in 0..row_count(found_station, step) {
        rows.push(row_at(found_station, step, index))?;
    }
    Ok(Rows::from_vec(rows))
}

/// Returns the row at index `index`, which is `index` steps of `step` minutes after the beginning of the
/// span.
fn row_at(found_station: &FoundStation, step: i64, index: u64) -> Row
    requires step { IsStep step }
    requires index { index ≤ row_limit }
    requires level { IsEvaluable found_station.now (found_station.now.span_request.begin +ℤ (step *ℤ pos index)) }
    ensures { result ≡ row_at found_station.now.curve.book (site_of found_station.now) found_station.now.span_request.begin step index }
{
    let minute = minute_at(found_station.span_request.begin, step, index);
    Row {
        minute,
        level: level_at(found_station, minute),
    }
}

/// Returns the minute of the row at index `index`, which is `index` steps of `step` minutes after
/// `begin`.
fn minute_at(begin: i64, step: i64, index: u64) -> i64
    requires begin { unsigned_abs begin ≤ 20000000000 }
    requires step { IsStep step }
    requires index { index ≤ row_limit }
    ensures { result ≡ begin +ℤ (step *ℤ pos index) }
{
    begin + minutes_to(step, index)
}

/// Returns the minutes from the beginning of the span to the row at index `index`.
fn minutes_to(step: i64, index: u64) -> i64
    requires step { IsStep step }
    requires index { index ≤ row_limit }
    ensures exact { result ≡ step *ℤ pos index }
    ensures count_bound { unsigned_abs result ≤ 4464000000 }
{
    step * index as i64
}

/// Proves examples of the number of rows that a listing of levels has, for a begin, an end and a step in
/// minutes: the end has a row if a step leads to it, and 100,000 rows are allowed but no more.
#[tactic(auto, unfolding(crate::specs::Answers::rows_in))]
pub fn sample_row_counts()
    ensures empty_span { row_count (pos 0) (pos 0) (pos 60) ≡ 1 }
    ensures before_step { row_count (pos 0) (pos 59) (pos 60) ≡ 1 }
    ensures with_end { row_count (pos 0) (pos 60) (pos 60) ≡ 2 }
    ensures day { row_count (pos 15791040) (pos 15792480) (pos 360) ≡ 5 }
    ensures across_epoch { row_count (negsuc 59) (pos 60) (pos 60) ≡ 3 }
    ensures longest_step { row_count (pos 0) (pos 44639) (pos 44640) ≡ 1 }
    ensures most { rows_in (pos 0) (pos 99999) (pos 1) ≡ Ok tt }
    ensures one_more { rows_in (pos 0) (pos 100000) (pos 1) ≡ Err (Refusal.TooManyRows (pos 100001)) }
    ensures by_two { rows_in (negsuc 99999) (pos 99999) (pos 2) ≡ Ok tt }
{}
