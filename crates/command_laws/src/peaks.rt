//! The law of the highest water.

ghost use Rattle.std.specs.Prelude.{◌≡◌, pos, negsuc, IsOk, [], ◌∷◌, codes, Some, None};
ghost use Rattle.curve_law.specs.declared.kind.Kind.{Kind};
ghost use Rattle.harmonics_book.specs.Worked.{pier_book as pier_file};
ghost use Rattle.question.specs.declared.command.Command.{Command};
ghost use Rattle.question.specs.Worked.{bare};
ghost use Rattle.station_curve.specs.Worked.{pier_book};
ghost use Rattle.station_span.specs.Following.{events_of};
ghost use Rattle.station_span.specs.Levels.{level_at};
ghost use Rattle.tide_answer.specs.Answers.{answered};
ghost use Rattle.zone_time.specs.declared.zone.Zone.{Zone};
ghost use Rattle.command_laws.specs.Peaks.{sill, NothingIsHigher};

use tide_answer::highest_is_reported;

/// Proves that no event that `predict` lists over the same span, and no row of `heights` before the end
/// of the span, has a level greater than the level that `highest` prints. Slack waters with their own
/// offsets are excepted, since they have the level of the reference station, which can be above all
/// levels of the station.
pub fn no_event_is_above_the_highest_water()
    ensures { NothingIsHigher }
{
    highest_is_reported();
}

/// Proves two examples: `highest` has an answer for a span of two minutes; and a station with separate
/// offsets for slack waters has one, in a span of one minute, that has its reference station's level,
/// which is above the station's only level in the span.
pub fn worked_highest()
    ensures met { IsOk (answered pier_file []
        (record (bare Command.Highest) { station = Some (codes "Pier"); begin = Some (pos 15791759); end = Some (pos 15791761) })
        (record { zone = Zone.Utc; certificate = []; now = pos 0 })) }
    ensures slack { events_of pier_book sill (record { begin = pos 15791939; end = pos 15791940; mark = None })
        ≡ record { minute = pos 15791939; kind = Kind.EbbBegins; level = pos 8727 } ∷ [] }
    ensures level { level_at pier_book sill (pos 15791939) ≡ negsuc 9991272 }
{}
