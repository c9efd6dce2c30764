//! Theorems about the events of a station.

ghost use Rattle.std.specs.Prelude.{◌≡◌, ℕ, ◌+◌, ◌*◌, ◌^◌, ◌≤◌, ℤ, ◌≤ℤ◌, ◌<ℤ◌, unsigned_abs, List, All, IsTrue};
ghost use Rattle.curve_law.specs.declared.event.Event.{Event};
ghost use Rattle.curve_law.specs.declared.tracks.Tracks.{Tracks};
ghost use Rattle.harmonics_book.specs.declared.book.Units.{Units};
ghost use Rattle.station_table.specs.declared.basis.Basis.{Basis};
ghost use Rattle.station_table.specs.Bases.{is_plain};
ghost use Rattle.event_list.specs.declared.span.Span.{Span};
ghost use Rattle.event_text.specs.Words.{has_word};
ghost use Rattle.event_list.specs.Shifts.{HasOffsets, IsMovable, widened_of, shifted_of};
ghost use Rattle.event_list.specs.Events.{
  span_minutes,
  Followed,
  station_events,
  merged_of,
  cells_in,
  covers_of,
  cell_count,
  AllHaveLevels,
  AreValidOver,
  AreAccepted,
  AreNamed,
};

/// Proves that a station's events can be made from cells that the check of a certificate accepts,
/// over the span of its reference station that determines them (`widened_of`): the events in the
/// cells, merged and then moved by the station's offsets, are the station's events. Also proves
/// that the cells made by halving the span are accepted and give the same events, and that there
/// are at most three of them (one for each track) for each minute of the span.
pub fn cells_give_the_events()
    ensures accepted { (f : Followed) (b : Basis) (begin end : ℤ) (t : Tracks) →
        AreValidOver f (widened_of b begin end) → AreAccepted f (widened_of b begin end) t →
        shifted_of b begin end (merged_of (widened_of b begin end).begin t) ≡ station_events f b begin end }
    ensures covers { (f : Followed) (s : Span) → AreAccepted f s (covers_of f s) }
    ensures exact { (f : Followed) (b : Basis) (begin end : ℤ) → AreValidOver f (widened_of b begin end) →
        shifted_of b begin end (merged_of (widened_of b begin end).begin (covers_of f (widened_of b begin end)))
        ≡ station_events f b begin end }
    ensures count_bound { (f : Followed) (s : Span) → cell_count f s ≤ 3 * span_minutes s }
{}

/// Proves for a station without offsets (`is_plain`) that its events are determined by the same span of
/// its reference station, and are exactly the merged events in accepted cells (cells that the check of
/// a certificate accepts), or in the cells made by halving the span.
pub fn plain_bases_move_nothing()
    ensures span { (b : Basis) (begin end : ℤ) → IsTrue (is_plain b) →
        widened_of b begin end ≡ record { begin = begin; end = end } }
    ensures merged { (f : Followed) (b : Basis) (begin end : ℤ) (t : Tracks) → IsTrue (is_plain b) → begin ≤ℤ end →
        AreValidOver f (record { begin = begin; end = end }) → AreAccepted f (record { begin = begin; end = end }) t →
        merged_of begin t ≡ station_events f b begin end }
    ensures covers { (f : Followed) (b : Basis) (begin end : ℤ) → IsTrue (is_plain b) → begin ≤ℤ end →
        AreValidOver f (record { begin = begin; end = end }) →
        merged_of begin (covers_of f (record { begin = begin; end = end })) ≡ station_events f b begin end }
{}

/// Proves that the events in accepted cells (cells that the check of a certificate accepts) are small
/// enough for the offsets of any station, if both ends of the span are from -10^12 to 10^12, and at
/// each minute the levels of each requested curve are at most 11,000,000,000 millionths of the unit in
/// size.
pub fn accepted_events_can_be_moved()
    ensures { (f : Followed) (s : Span) (t : Tracks) → s.begin ≤ℤ s.end →
        unsigned_abs s.begin ≤ 10 ^ 12 → unsigned_abs s.end ≤ 10 ^ 12 →
        AreValidOver f s → AllHaveLevels f → AreAccepted f s t → All IsMovable (merged_of s.begin t) }
{}

/// Proves three facts about a station's events. Each is at a minute from `begin` up to but not
/// including `end`. Each has a name in the unit if the events of each requested curve have names,
/// both where its value rises above 0 and where it falls to 0. And offsets in their ranges make
/// levels of at most 1,110,000,000,000 millionths of the unit in size from levels of at most
/// 11,000,000,000.
pub fn events_are_named()
    ensures within { (f : Followed) (b : Basis) (begin end : ℤ) →
        All (λ e. (begin ≤ℤ e.minute) × (e.minute <ℤ end)) (station_events f b begin end) }
    ensures named { (units : Units) (f : Followed) (b : Basis) (begin end : ℤ) → AreNamed units f →
        All (λ e. IsTrue (has_word units e.kind)) (station_events f b begin end) }
    ensures small { (b : Basis) (begin end : ℤ) (events : List Event) → HasOffsets b → All IsMovable events →
        All (λ e. unsigned_abs e.level ≤ 1110000000000) (shifted_of b begin end events) }
{}
