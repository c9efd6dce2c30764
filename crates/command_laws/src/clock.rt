//! The law of `clock`.

ghost use Rattle.std.specs.Prelude.{◌≡◌, pos, true, IsOk, [], ◌∷◌, codes, Some, None};
ghost use Rattle.curve_law.specs.declared.kind.Kind.{Kind};
ghost use Rattle.harmonics_book.specs.declared.book.Units.{Units};
ghost use Rattle.harmonics_book.specs.Worked.{pier_book as pier_file};
ghost use Rattle.question.specs.declared.command.Command.{Command};
ghost use Rattle.question.specs.Worked.{bare};
ghost use Rattle.station_curve.specs.Worked.{pier, pier_book};
ghost use Rattle.station_span.specs.Following.{events_of};
ghost use Rattle.station_span.specs.Levels.{is_rising_at};
ghost use Rattle.station_table.specs.Bases.{reference_basis};
ghost use Rattle.tide_answer.specs.Answers.{answered};
ghost use Rattle.zone_time.specs.declared.zone.Zone.{Zone};
ghost use Rattle.command_laws.specs.Clock.{ShowsThePresentAndTheNextDay};

/// Proves that `clock` prints the line that `heights` prints for the present minute, and then the lines
/// that `predict` prints for the next 1,440 minutes; if `clock` has an answer, these requests have one
/// too. Also proves that the first high or low water listed, if any, is a high water exactly if `clock`
/// prints that the level is rising.
pub fn clock_shows_the_present_and_the_next_day()
    ensures { ShowsThePresentAndTheNextDay }
{}

/// Proves an example of the command `clock`: it has an answer, at the minute before a high water; the
/// level is rising then, and the next high or low water is this high water.
pub fn worked_clock()
    ensures met { IsOk (answered pier_file [] (record (bare Command.Clock) { station = Some (codes "Pier") })
        (record { zone = Zone.Utc; certificate = []; now = pos 15791759 })) }
    ensures rises { is_rising_at pier_book (record { basis = reference_basis 0; station = pier }) (pos 15791759) ≡ true }
    ensures high { events_of pier_book (record { basis = reference_basis 0; station = pier })
        (record { begin = pos 15791759; end = pos 15791761; mark = None })
        ≡ record { minute = pos 15791759; kind = Kind.High; level = pos 999962 } ∷ [] }
{}
