//! Examples of plain lists (the events of a span, found by looking at each minute), computed by
//! hand.

ghost use Rattle.std.specs.Prelude.{◌≡◌, ℕ, ℤ, pos, negsuc, neg_ℤ, ◌*ℤ◌, ◌-ℤ◌, List, [], ◌∷◌};
ghost use Rattle.curve_law.specs.declared.event.Event.{Event};
ghost use Rattle.curve_law.specs.declared.kind.Kind.{Kind};
ghost use Rattle.curve_law.specs.Track.{Track, plain_list};

/// Proves the events of four tracks over the five minutes from -2 to 2, and of one of them over two
/// minutes. The level at a minute is 10 times the minute's number; rises have the kind `Low` and
/// falls the kind `High`. `negsuc n` is -(n + 1).
#[tactic(auto, unfolding(crate::specs::Track::minutes, crate::specs::Track::plain_list))]
pub fn sample_events()
    // The value at minute m is m: an event after minute 0, since 0 isn't above 0 yet and 1 is.
    ensures rises { let t : Track = record { value = λ m. m; note = λ m. pos 10 *ℤ m; rising = Kind.Low; falling = Kind.High } in
        plain_list t (negsuc 1) 5 ≡ record { minute = pos 0; kind = Kind.Low; level = pos 0 } ∷ [] }
    // The value is -m: an event after minute -1, at which it falls from 1 to 0.
    ensures falls { let t : Track = record { value = λ m. neg_ℤ m; note = λ m. pos 10 *ℤ m; rising = Kind.Low; falling = Kind.High } in
        plain_list t (negsuc 1) 5 ≡ record { minute = negsuc 0; kind = Kind.High; level = negsuc 9 } ∷ [] }
    // The value is minus the square of m: it touches 0 from below, and there is no event.
    ensures touches_from_below { let t : Track =
        record { value = λ m. neg_ℤ (m *ℤ m); note = λ m. pos 10 *ℤ m; rising = Kind.Low; falling = Kind.High } in
        plain_list t (negsuc 1) 5 ≡ [] }
    // The value is the square of m: it touches 0 from above, a fall after minute -1 and a rise
    // after 0.
    ensures touches_from_above { let t : Track =
        record { value = λ m. m *ℤ m; note = λ m. pos 10 *ℤ m; rising = Kind.Low; falling = Kind.High } in
        plain_list t (negsuc 1) 5
        ≡ record { minute = negsuc 0; kind = Kind.High; level = negsuc 9 }
        ∷ record { minute = pos 0; kind = Kind.Low; level = pos 0 } ∷ [] }
    // The minutes -2 and -1 don't have the event that the value m has after minute 0.
    ensures ends_before_it { let t : Track = record { value = λ m. m; note = λ m. pos 10 *ℤ m; rising = Kind.Low; falling = Kind.High } in
        plain_list t (negsuc 1) 2 ≡ [] }
{}
