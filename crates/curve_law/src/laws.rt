//! Theorems about the plain list of a span: its events, found by looking at each of its minutes.

ghost use Rattle.std.specs.Prelude.{◌≡◌, ℕ, suc, ◌+◌, ◌<◌, ℤ, pos, ◌+ℤ◌, ◌≤ℤ◌, ◌<ℤ◌, true, false, if◌then◌else◌, [], ◌∷◌, ◌++◌};
ghost use Rattle.curve_law.specs.Track.{Track, has_event, event_at, plain_list};

/// Proves that a span of no minutes has no events, and that the list of a span of one minute is the
/// event after this minute, or is empty if there is none.
pub fn plain_list_of_one_minute()
    ensures none { (t : Track) (a : ℤ) → plain_list t a 0 ≡ [] }
    ensures one { (t : Track) (a : ℤ) →
        plain_list t a 1 ≡ (if has_event t a then event_at t a ∷ [] else []) }
{}

/// Proves that the events of a span are the events of its first minute followed by the events of
/// the rest. More generally, if a span of `k` minutes begins at the end of a span of `n` minutes,
/// the events of the first followed by the events of the second are the events of all `n + k`
/// minutes.
pub fn plain_list_of_two_spans()
    ensures first { (t : Track) (a : ℤ) (n : ℕ) →
        plain_list t a (suc n) ≡ plain_list t a 1 ++ plain_list t (a +ℤ pos 1) n }
    ensures joined { (t : Track) (a : ℤ) (n k : ℕ) →
        plain_list t a (n + k) ≡ plain_list t a n ++ plain_list t (a +ℤ pos n) k }
{}

/// Proves that the list of the events of a span (`plain_list`) is empty if no event is after any of
/// its minutes.
pub fn plain_list_of_quiet_minutes()
    ensures { (t : Track) (a : ℤ) (n : ℕ) →
        ((k : ℕ) → k < n → has_event t (a +ℤ pos k) ≡ false) → plain_list t a n ≡ [] }
{}

/// Proves when an event is after minute `m`, from the values at `m` and at the next minute. There
/// is none if both are above 0, or if neither is: a value that rises to 0 and then falls has no
/// event. From above 0 to 0 or below there is an event of the falling kind, and from 0 or below to
/// above 0 one of the rising kind, at minute `m` and with the level of minute `m`.
pub fn events_pass_zero()
    ensures above { (t : Track) (m : ℤ) →
        pos 0 <ℤ t.value m → pos 0 <ℤ t.value (m +ℤ pos 1) → has_event t m ≡ false }
    ensures below { (t : Track) (m : ℤ) →
        t.value m ≤ℤ pos 0 → t.value (m +ℤ pos 1) ≤ℤ pos 0 → has_event t m ≡ false }
    ensures falls { (t : Track) (m : ℤ) →
        pos 0 <ℤ t.value m → t.value (m +ℤ pos 1) ≤ℤ pos 0 → (has_event t m ≡ true)
        × (event_at t m ≡ record { minute = m; kind = t.falling; level = t.note m }) }
    ensures rises { (t : Track) (m : ℤ) →
        t.value m ≤ℤ pos 0 → pos 0 <ℤ t.value (m +ℤ pos 1) → (has_event t m ≡ true)
        × (event_at t m ≡ record { minute = m; kind = t.rising; level = t.note m }) }
{}
