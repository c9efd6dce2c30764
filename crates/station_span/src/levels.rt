//! The level of a station at a minute.

ghost use Rattle.std.specs.Prelude.{◌≡◌, ◌-ℤ◌, pos, negsuc, IsTrue, Ok, Err, OnOk};
ghost use Rattle.event_list.specs.Shifts.{scaled};
ghost use Rattle.event_list.specs.Worked.{dock};
ghost use Rattle.station_table.specs.Bases.{is_equal};
ghost use Rattle.station_span.specs.declared.purpose.Purpose.{Purpose};
ghost use Rattle.station_span.specs.Levels.{is_rising_at, level_at, level_in};
ghost use Rattle.station_span.specs.Workings.Finds.{AreEvaluable, IsEvaluable, site_of};
ghost use Rattle.station_curve.specs.Curves.{IsPredicted};

use crate::found_station::FoundStation;
use crate::station::earlier;
use event_list::scaled;
use tide_fault::Refusal;

/// Returns `Ok` if the station `found_station` has a level at each minute, which it has if its high
/// and low waters have the same offsets. Then, if it was found for [`Purpose::Levels`], its level
/// can be computed at each minute of the requested span and at its end; and in any case, if it was
/// found for [`Purpose::Events`], at the first minute of that span.
///
/// # Errors
/// [`Refusal::LevelNotHere`] if the offsets of its high and low waters differ.
#[tactic(auto, unfolding(crate::specs::Levels::level_in))]
pub fn check_level(found_station: &FoundStation) -> Result<(), Refusal>
    ensures exact { result ≡ level_in found_station.now.basis }
    ensures equal { OnOk result (IsTrue (is_equal found_station.now.basis)) }
    ensures first { found_station.now.purpose ≡ Purpose.Events → IsEvaluable found_station.now found_station.now.span_request.begin }
    ensures all { OnOk result (found_station.now.purpose ≡ Purpose.Levels → AreEvaluable found_station.now) }
{
    if found_station.basis.equal() {
        Ok(())
    } else {
        Err(Refusal::LevelNotHere)
    }
}

/// Returns the level of the station `found_station` at `minute`, in millionths of its unit.
/// `minute` is counted from 1970-01-01T00:00Z. The level is the reference station's, at `minute`
/// less the minutes of the high-water offset, multiplied by the offset's factor and rounded to
/// whole millionths, plus the offset's height. The call doesn't allocate.
pub fn level_at(found_station: &FoundStation, minute: i64) -> i64
    requires { IsEvaluable found_station.now minute }
    ensures { result ≡ level_at found_station.now.curve.book (site_of found_station.now) minute }
{
    let level = found_station
        .curve
        .millionths(source(found_station, minute));
    scaled(&found_station.basis.high, level)
}

/// Returns true if the level of the station `found_station` rises at `minute`, that is, if the
/// slope of its reference station at `minute` less the minutes of the high-water offset is above 0.
/// The call doesn't allocate.
pub fn is_rising(found_station: &FoundStation, minute: i64) -> bool
    requires { IsEvaluable found_station.now minute }
    ensures { result ≡ is_rising_at found_station.now.curve.book (site_of found_station.now) minute }
{
    found_station.curve.slope(source(found_station, minute)) > 0
}

/// Returns the reference station's minute at which its level determines the level of
/// `found_station` at `minute`: `minute` less the minutes of the high-water offset. It is one of
/// the curve's minutes (`inside`).
pub fn source(found_station: &FoundStation, minute: i64) -> i64
    requires { IsEvaluable found_station.now minute }
    ensures exact { result ≡ minute -ℤ found_station.now.basis.high.add }
    ensures inside { IsPredicted found_station.now.curve (minute -ℤ found_station.now.basis.high.add) }
{
    earlier(minute, found_station.basis.high.add)
}

/// Proves examples of levels, in millionths: one offset doubles a reference station's level and adds
/// 500,000, another halves it, rounded to the nearest millionth. Also proves that a station has a level
/// at each minute if its high and low waters have the same offsets, and is refused otherwise.
#[tactic(auto, unfolding(crate::specs::Levels::level_in, decimal_text::specs::Rounding::rounded_of))]
pub fn worked_levels()
    ensures twice { scaled (record { add = pos 30; times = pos 2000000; plus = pos 500000 }) (pos 1000000) ≡ pos 2500000 }
    ensures half_up { scaled (record { add = pos 0; times = pos 500000; plus = pos 0 }) (pos 3) ≡ pos 2 }
    ensures half_down { scaled (record { add = pos 0; times = pos 500000; plus = pos 0 }) (negsuc 2) ≡ negsuc 1 }
    ensures same { level_in (record dock { low = dock.high }) ≡ Ok tt }
    ensures differing { level_in dock ≡ Err Refusal.LevelNotHere }
{}
