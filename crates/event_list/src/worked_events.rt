//! Events of stations that were computed by hand.

ghost use Rattle.std.specs.Prelude.{◌≡◌, pos, negsuc, [], ◌∷◌, ◌++◌};
ghost use Rattle.curve_law.specs.declared.kind.Kind.{Kind};
ghost use Rattle.event_list.specs.Order.{ordered};
ghost use Rattle.event_list.specs.Shifts.{moved, shifted_of, widened_of};
ghost use Rattle.event_list.specs.Events.{cell_count, cells_in, merged_of, station_events};
ghost use Rattle.event_list.specs.Worked.{dock, event, gate, harbour, lines, marks, slacks, tracks, waters};

/// Proves examples of moving the events of a reference station, the pier; minutes are counted from a
/// midnight, levels are in millionths of a foot, and `negsuc n` is -(n + 1). The dock's high waters are
/// 30 minutes later and its low waters 10 minutes earlier, so a day at the dock needs the pier's
/// minutes from -30 up to but not including 1,450. The dock's first high water is the pier's at minute
/// -1; an event at the end of the span isn't included. The gate also has offsets of slack water, and
/// the harbour has one offset for all events. Half a millionth is rounded away from 0.
#[tactic(auto, unfolding(decimal_text::specs::Rounding::rounded_of, crate::specs::Order::with_event, crate::specs::Order::ordered, crate::specs::Shifts::shifted_of))]
pub fn worked_shifts()
    // Two high and two low waters of a day at the dock.
    ensures dock_span { widened_of dock (pos 0) (pos 1440) ≡ record { begin = negsuc 29; end = pos 1450 } }
    // The gate's minutes for slack waters are between its other offsets, so its span is the dock's.
    ensures gate_span { widened_of gate (pos 0) (pos 1440) ≡ record { begin = negsuc 29; end = pos 1450 } }
    // 0.9 times 5 millionths is 4.5, rounded to 5.
    ensures half { moved dock (event (pos 0) Kind.Low (pos 5)) ≡ event (negsuc 9) Kind.Low (pos 5) }
    // 0.9 times -5 millionths is -4.5, rounded to -5 (`negsuc 4`).
    ensures half_below { moved dock (event (pos 0) Kind.Low (negsuc 4)) ≡ event (negsuc 9) Kind.Low (negsuc 4) }
    ensures dock { shifted_of dock (pos 0) (pos 1440) waters
        ≡ event (pos 29) Kind.High (pos 1199958) ∷ event (pos 350) Kind.Low (negsuc 899999)
        ∷ event (pos 749) Kind.High (pos 1199958) ∷ event (pos 1070) Kind.Low (negsuc 899999) ∷ [] }
    ensures gate { shifted_of gate (pos 0) (pos 1440) (waters ++ slacks)
        ≡ event (pos 29) Kind.High (pos 1199958) ∷ event (pos 174) Kind.EbbBegins (pos 8727)
        ∷ event (pos 350) Kind.Low (negsuc 899999) ∷ event (pos 545) Kind.FloodBegins (pos 0)
        ∷ event (pos 749) Kind.High (pos 1199958) ∷ event (pos 894) Kind.EbbBegins (pos 8727)
        ∷ event (pos 1070) Kind.Low (negsuc 899999) ∷ event (pos 1265) Kind.FloodBegins (pos 0) ∷ [] }
    // At the harbour the crossings of a mark are moved by the offset of high waters.
    ensures harbour { shifted_of harbour (pos 0) (pos 720) (waters ++ marks)
        ≡ event (pos 29) Kind.High (pos 2499924) ∷ event (pos 149) Kind.MarkFalling (pos 1515076)
        ∷ event (pos 390) Kind.Low (negsuc 1499999) ∷ event (pos 630) Kind.MarkRising (pos 1500000) ∷ [] }
    // The span ends at minute 350, so the low water at this minute isn't in it.
    ensures ends_before_it { shifted_of dock (pos 29) (pos 350) waters ≡ event (pos 29) Kind.High (pos 1199958) ∷ [] }
{}

/// Proves that four events at the minutes 4 and 5 are listed by minute and then by kind. Also proves
/// the merged events of three tracks (`tracks`), of which each first cell begins at minute 10, and that
/// these tracks have 14 cells.
#[tactic(auto, unfolding(curve_law::specs::Cells::cell_events, crate::specs::Order::with_event, crate::specs::Order::ordered, crate::specs::Events::merged_of, crate::specs::Events::cells_in))]
pub fn worked_orders()
    // Three events at minute 5 are listed after the event at minute 4, in the order of their kinds.
    ensures one_minute { ordered (event (pos 5) Kind.MarkFalling (pos 0) ∷ event (pos 5) Kind.Low (pos 9)
        ∷ event (pos 4) Kind.EbbBegins (pos 8) ∷ event (pos 5) Kind.FloodBegins (negsuc 0) ∷ [])
        ≡ event (pos 4) Kind.EbbBegins (pos 8) ∷ event (pos 5) Kind.Low (pos 9)
        ∷ event (pos 5) Kind.FloodBegins (negsuc 0) ∷ event (pos 5) Kind.MarkFalling (pos 0) ∷ [] }
    // The events of the three tracks in one list.
    ensures merged { merged_of (pos 10) tracks
        ≡ event (pos 10) Kind.MarkRising (pos 5) ∷ event (pos 12) Kind.High (pos 7)
        ∷ event (pos 12) Kind.MarkFalling (pos 5) ∷ event (pos 13) Kind.Low (pos 6)
        ∷ event (pos 13) Kind.EbbBegins (pos 0) ∷ event (pos 16) Kind.FloodBegins (pos 1) ∷ [] }
    // 4 cells of high and low waters, 6 of slack waters and 4 of crossings of a mark.
    ensures cells { cells_in tracks ≡ 14 }
{}

/// Proves the events at the dock for two curves that are straight lines, with a low water at minute 2
/// and a high water at minute 1; the level at a minute is the minute's number. At the dock the low
/// water is 10 minutes earlier, at minute -8 (`negsuc 7`), and the high water 30 minutes later, at
/// minute 31, which a span up to minute 31 doesn't include. Also proves that 8 cells cover 8 minutes of
/// both curves.
#[tactic(auto, unfolding(decimal_text::specs::Rounding::rounded_of, curve_law::specs::Track::minutes, curve_law::specs::Track::plain_list, curve_law::specs::Cover::keeps_side, curve_law::specs::Cover::is_quiet, curve_law::specs::Cover::unit_cell, curve_law::specs::Pieces::halves_within, curve_law::specs::Pieces::pieces_of_block, curve_law::specs::Pieces::blocks_within, curve_law::specs::Pieces::pieces_of, curve_law::specs::Cover::cover, crate::specs::Order::with_event, crate::specs::Order::ordered, crate::specs::Events::station_events, crate::specs::Events::cells_in, crate::specs::Events::cell_count))]
pub fn worked_stations()
    // A span up to but not including minute 32 has both events.
    ensures dock { station_events lines dock (negsuc 9) (pos 32)
        ≡ event (negsuc 7) Kind.Low (pos 2) ∷ event (pos 31) Kind.High (pos 100001) ∷ [] }
    // A span that ends at minute 31 doesn't have the high water at this minute.
    ensures dock_earlier { station_events lines dock (negsuc 9) (pos 31) ≡ event (negsuc 7) Kind.Low (pos 2) ∷ [] }
    // 4 cells for each of the two curves.
    ensures cells { cell_count lines (record { begin = pos 0; end = pos 8 }) ≡ 8 }
{}
