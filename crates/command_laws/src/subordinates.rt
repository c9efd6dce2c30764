//! The law of subordinate stations.

ghost use Rattle.std.specs.Prelude.{◌≡◌, pos, IsOk, [], ◌∷◌, codes, Some, None, Ok};
ghost use Rattle.curve_law.specs.declared.kind.Kind.{Kind};
ghost use Rattle.event_list.specs.Shifts.{widened_of};
ghost use Rattle.event_list.specs.Worked.{harbour};
ghost use Rattle.harmonics_book.specs.declared.book.Units.{Units};
ghost use Rattle.harmonics_book.specs.Worked.{pier_book as pier_file};
ghost use Rattle.question.specs.declared.command.Command.{Command};
ghost use Rattle.question.specs.Worked.{bare};
ghost use Rattle.station_curve.specs.Worked.{pier, pier_book, small_station};
ghost use Rattle.station_span.specs.Following.{events_of};
ghost use Rattle.station_table.specs.Bases.{basis_of, reference_basis};
ghost use Rattle.station_table.specs.Worked.{dock_rows};
ghost use Rattle.tide_answer.specs.Answers.{answered};
ghost use Rattle.zone_time.specs.declared.zone.Zone.{Zone};
ghost use Rattle.command_laws.specs.Subordinates.{second_step, stream, ListsInTwoSteps, ReferenceIsAnswered};

/// Proves that the list of a subordinate station can be made in two steps: list the events of its
/// reference station over the span whose events the offsets can move into the requested span; then move
/// and scale each event by the offset of its kind, and keep and sort the events within the span. This
/// always holds for high and low waters. It holds for all events except crossings of a mark, which
/// differ at the reference station, and except slack waters of a current with an added level and no
/// separate offsets for them, since its level crosses 0 at other minutes.
pub fn subordinates_list_in_two_steps()
    ensures steps { ListsInTwoSteps }
    ensures answered { ReferenceIsAnswered }
{}

/// Proves an example: the high water of a reference station, and the high water of a subordinate
/// station (Outer, a row of an example table) 30 minutes later, at twice the level plus 0.5 feet.
/// The list of the subordinate station over one minute needs the reference's list over the minute
/// that is 30 minutes earlier (`widened`). Also proves that requests about both stations have an
/// answer.
pub fn worked_steps()
    ensures widened { widened_of harbour (pos 15791789) (pos 15791790) ≡ record { begin = pos 15791759; end = pos 15791760 } }
    ensures first { events_of pier_book (record { basis = reference_basis 0; station = pier })
        (record { begin = pos 15791759; end = pos 15791760; mark = None })
        ≡ record { minute = pos 15791759; kind = Kind.High; level = pos 999962 } ∷ [] }
    ensures second { second_step Units.Feet harbour (pos 15791789) (pos 15791790)
        (record { minute = pos 15791759; kind = Kind.High; level = pos 999962 } ∷ [])
        ≡ record { minute = pos 15791789; kind = Kind.High; level = pos 2499924 } ∷ [] }
    ensures listed { events_of pier_book (record { basis = harbour; station = pier })
        (record { begin = pos 15791789; end = pos 15791790; mark = None })
        ≡ record { minute = pos 15791789; kind = Kind.High; level = pos 2499924 } ∷ [] }
    ensures found { basis_of pier_file dock_rows (codes "Outer") ≡ Ok harbour }
    ensures met { IsOk (answered pier_file dock_rows
        (record (bare Command.Predict) { station = Some (codes "Outer"); begin = Some (pos 15791789); end = Some (pos 15791790) })
        (record { zone = Zone.Utc; certificate = []; now = pos 0 })) }
    ensures first_met { IsOk (answered pier_file dock_rows
        (record (bare Command.Predict) { station = Some (codes "Pier"); begin = Some (pos 15791759); end = Some (pos 15791760) })
        (record { zone = Zone.Utc; certificate = []; now = pos 0 })) }
{}

/// Proves an example: a current with a level 0.5 knots above its reference station's has a slack water
/// at a minute when its own level crosses 0, and its reference station has no slack water then.
pub fn worked_own_slack()
    ensures own { events_of pier_book stream (record { begin = pos 15791999; end = pos 15792000; mark = None })
        ≡ record { minute = pos 15791999; kind = Kind.EbbBegins; level = pos 7576 } ∷ [] }
    ensures none { events_of pier_book (record { basis = reference_basis 0; station = small_station (pos 1000000) Units.Knots })
        (record { begin = pos 15791999; end = pos 15792000; mark = None }) ≡ [] }
{}
