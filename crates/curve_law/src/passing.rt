//! The kind of an event at which a value crosses zero.

ghost use Rattle.std.specs.Prelude.{◌≡◌, if◌then◌else◌};

use crate::kind::Kind;

/// Returns the kind of the event after a minute that has one. `is_above` says whether the value at
/// this minute is above 0: the result is `falling` if it is, and `rising` otherwise.
pub fn kind_after(is_above: bool, rising: Kind, falling: Kind) -> Kind
    ensures { result ≡ (if is_above then falling else rising) }
{
    if is_above { falling } else { rising }
}
