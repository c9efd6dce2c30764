//! The highest water of a station over a span.

ghost use Rattle.std.specs.Prelude.{◌≡◌, ◌<◌, ◌≤◌, ◌^◌, pos, ◌+ℤ◌, true, length, unsigned_abs, IfOk, OnOk};
ghost use Rattle.cert_text.specs.Certificates.{IsStationName};
ghost use Rattle.highest_water.specs.declared.verdict.PeakVerdict.{PeakVerdict};
ghost use Rattle.station_span.specs.Peaks.{highest_of, highest_site, highest_verdict};
ghost use Rattle.rate_bound.specs.declared.version.Version.{Version};
ghost use Rattle.rate_bound.specs.CurveSpecs.{mark_spec};
ghost use Rattle.station_span.specs.Workings.Finds.{FindsIn, HasPeak, IsEvaluable, site_of};
ghost use Rattle.station_span.specs.Workings.Peaks.{IsSourceIn};

use crate::found_station::FoundStation;
use crate::levels::check_level;
use crate::purpose::Purpose;
use crate::station::find_station;
use crate::station_data::StationData;
use crate::station_request::StationRequest;
use curve_law::Curve;
use highest_water::{Peak, PeakVerdict, check_peak, find_peak, highest_point};
use rate_bound::MarkCurve;
use std::alloc::{AllocError, Global};
use tide_fault::Refusal;

/// Returns the station that `request` names, one of `stations`, ready for a search for its highest water
/// over the span of `request`.
///
/// # Errors
/// The first [`Refusal`] in this order: the station isn't found, it is a hydraulic current, its span is
/// backward, empty or outside the file's years, its constants exceed a limit, its span is too long, or
/// the offsets of its highs and lows differ. If memory runs out, [`Refusal::NoMemory`] is returned in
/// place of any other result.
///
/// # Examples
/// ```
/// let stations = StationData::new(&book, &table);
/// let request = StationRequest::new(&name, span_request);
/// let found_station = find_level(alloc, &stations, &request)?;
/// let minute = moved_minute(&found_station, highest_minute(&found_station));
/// let level = level_at(&found_station, minute);
/// assert_eq!(rt; (minute, level), (15_791_040, 1_000_000));
/// ```
#[tactic(auto, unfolding(crate::specs::Peaks::highest_site))]
pub fn find_level(
    alloc: Global,
    stations: &StationData<'_>,
    request: &StationRequest<'_>,
) -> Result<FoundStation, Refusal>
    ensures exact { FindsIn Purpose.Highest stations.now.book request.now.span_request
        (highest_site stations.now.book stations.now.table request.now.name request.now.span_request) result }
    ensures peak { IfOk result HasPeak }
    ensures named { OnOk result (IsStationName request.now.name) }
{
    let found_station = find_station(alloc, stations, Purpose::Highest, request)?;
    check_level(&found_station)?;
    Ok(found_station)
}

/// Returns the highest water of the reference station among the minutes that the high-water offset of
/// `found_station` moves into the span of its request, with the cells that prove it.
pub fn find_highest(alloc: Global, found_station: &FoundStation) -> Result<Peak, AllocError>
    requires { HasPeak found_station.now }
    ensures exact { IfOk result (λ peak. peak ≡ highest_of found_station.now.curve.book (site_of found_station.now) found_station.now.span_request) }
    ensures inside { IfOk result (λ peak. IsSourceIn (site_of found_station.now) found_station.now.span_request peak.at) }
{
    let peak = find_peak(
        alloc,
        &mut level_curve(found_station),
        found_station.span.begin,
        found_station.span.end,
    )?;
    Ok(peak)
}

/// Returns the minute of the highest water of the reference station, among the minutes that the
/// high-water offset of `found_station` moves into the span of its request. Unlike [`find_highest`], it
/// makes no certificate cells.
pub fn highest_minute(found_station: &FoundStation) -> i64
    requires { HasPeak found_station.now }
    ensures exact { result ≡ (highest_of found_station.now.curve.book (site_of found_station.now) found_station.now.span_request).at }
    ensures inside { IsSourceIn (site_of found_station.now) found_station.now.span_request result }
{
    highest_point(
        &mut level_curve(found_station),
        found_station.span.begin,
        found_station.span.end,
    )
    .minute
}

/// Returns [`PeakVerdict::Accepted`] if `peak` and its cells prove the highest water of the
/// reference station among the minutes that the high-water offset of `found_station` moves into the
/// span of its request; otherwise the first fault. `peak.value` is below 10^37 in absolute value,
/// and `peak` has fewer than 2^32 cells. The call doesn't allocate.
pub fn judge_highest(found_station: &FoundStation, peak: &Peak) -> PeakVerdict
    requires peak { HasPeak found_station.now }
    requires size { unsigned_abs peak.now.value < 10 ^ 37 }
    requires count_bound { length peak.now.cells < 2 ^ 32 }
    ensures exact { result ≡ highest_verdict found_station.now.curve.book (site_of found_station.now) found_station.now.span_request peak.now }
    ensures inside { result ≡ PeakVerdict.Accepted → IsSourceIn (site_of found_station.now) found_station.now.span_request peak.now.at }
{
    check_peak(
        &mut level_curve(found_station),
        peak,
        found_station.span.begin,
        found_station.span.end,
    )
}

/// Returns the station's minute to which the high-water offset of `found_station` moves the minute `at`
/// of its reference station: `at` plus the offset's minutes.
pub fn moved_minute(found_station: &FoundStation, at: i64) -> i64
    requires peak { HasPeak found_station.now }
    requires inside { IsSourceIn (site_of found_station.now) found_station.now.span_request at }
    ensures exact { result ≡ at +ℤ found_station.now.basis.high.add }
    ensures level { IsEvaluable found_station.now result }
{
    later(at, found_station.basis.high.add)
}

/// Returns `minute` plus `add` minutes.
fn later(minute: i64, add: i32) -> i64
    requires minute { unsigned_abs minute ≤ 30000000000 }
    requires add { unsigned_abs add ≤ 1440 }
    ensures { result ≡ minute +ℤ add }
{
    minute + i64::from(add)
}

/// Returns the curve of the reference's level; its greatest value is the highest water.
fn level_curve<'a>(found_station: &'a FoundStation) -> MarkCurve<'a>
    ensures curve_spec { (⟦<MarkCurve<'a> as Curve>⟧.state result).curve_model.curve_spec
        ≡ mark_spec Version.Second found_station.now.curve (pos 1000000) (pos 0) (pos 0) true }
    ensures fresh { (⟦<MarkCurve<'a> as Curve>⟧.state result).count ≡ 0 }
{
    MarkCurve::blended(&found_station.curve, 1_000_000, 0, 0, true)
}
