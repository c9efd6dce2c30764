//! The answer of the command `clock`: the present level, and the events of the next 24 hours.

ghost use Rattle.std.specs.Prelude.{◌≡◌, pos, negsuc, ◌≤ℤ◌};
ghost use Rattle.decimal_text.specs.Expected.{EqualsUnlessNoMemory};
ghost use Rattle.tide_answer.specs.Answers.{on_clock};
ghost use Rattle.tide_answer.specs.Asking.{request_from_minute};
ghost use Rattle.tide_fault.specs.Faults.{refusal_is_out_of_memory};

use crate::text::Answer;
use decimal_text::Text;
use listing::clock_text;
use station_span::{
    Purpose, SpanRequest, StationData, StationRequest, check_level, find_events, find_station,
    is_rising, level_at,
};
use std::alloc::Global;
use tide_fault::Refusal;
use zone_time::{MINUTES_OF_DAY, ZoneClock};

/// Returns the answer of the command `clock` for the station called `name`, one of `stations`: its level
/// at the minute `now`, whether it rises then, and the events of the 1,440 minutes from `now` on, in the
/// local time of `zone`. `now` is in minutes since 1970-01-01T00:00Z, from -10,000,000,000 to
/// 10,000,000,000.
///
/// # Errors
/// The first [`Refusal`] in this order: the station isn't found, it is a hydraulic current, the 1,440
/// minutes are outside the file's years, the station's constants exceed a limit ([`Refusal::TooLarge`]
/// or [`Refusal::TooSteep`]), or the offsets of its high and low waters differ.
#[tactic(auto, unfolding(crate::specs::Answers::on_clock))]
pub fn clock_answer(
    alloc: Global,
    stations: &StationData<'_>,
    name: &Text,
    now: i64,
    zone: &ZoneClock<'_>,
) -> Result<Answer, Refusal>
    requires earliest { negsuc 9999999999 ≤ℤ now }
    requires latest { now ≤ℤ pos 10000000000 }
    ensures { EqualsUnlessNoMemory refusal_is_out_of_memory (on_clock stations.now.book stations.now.table name.now now zone.now) result }
{
    let request = day_from(name, now);
    let found_station = find_station(alloc, stations, Purpose::Events, &request)?;
    check_level(&found_station)?;
    let level = level_at(&found_station, now);
    let rising = is_rising(&found_station, now);
    let listed = find_events(alloc, &found_station)?;
    let text = clock_text(
        alloc,
        name,
        found_station.units,
        now,
        level,
        rising,
        &listed.events,
        zone.zone(),
    )?;
    Ok(Answer {
        text,
        rejected: false,
        cells: listed.cells,
    })
}

/// Returns the request about the station `name` over the 1,440 minutes from `now` on.
fn day_from<'a>(name: &'a Text, now: i64) -> StationRequest<'a>
    requires earliest { negsuc 9999999999 ≤ℤ now }
    requires latest { now ≤ℤ pos 10000000000 }
    ensures { result ≡ record { name = name.now; span_request = request_from_minute now } }
{
    let span_request = SpanRequest {
        begin: now,
        end: now + MINUTES_OF_DAY,
        mark: None,
    };
    StationRequest::new(name, span_request)
}
