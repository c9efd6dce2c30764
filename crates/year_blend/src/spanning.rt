//! Which years' constants consecutive minutes use.

ghost use Rattle.std.specs.Prelude.{◌≡◌, ◌≤◌, pos, ◌+ℤ◌};
ghost use Rattle.year_blend.specs.declared.spanning.TheConstants.{LONGEST_SPAN};
ghost use Rattle.year_blend.specs.Places.{AreYears, InDomain};
ghost use Rattle.year_blend.specs.Stretches.{IsStretchOf, stretch_of};

use crate::finding::{place, plain_end};
use crate::parts::{Place, Stretch};

/// The greatest number of minutes from the first minute of a stretch (consecutive minutes) to its last
/// one: the greatest `n` that [`stretch`] accepts.
pub const LONGEST_SPAN: u32 = 1024;

/// Returns the year or years, among `years` calendar years from `first_year` on, whose constants
/// apply to the minutes from `m` to `m + n`, both included: one year if each of these minutes is at
/// least an hour from every new year between two of the years, and otherwise the two years around
/// that new year. `m` and `m + n`, counted from 1970-01-01T00:00Z, are from the first minute of the
/// years to the first minute after them; `n` is at most [`LONGEST_SPAN`] (1,024).
#[cold]
#[inline(never)]
pub fn stretch(first_year: i32, years: u32, m: i64, n: u32) -> Stretch
    requires years { AreYears first_year years }
    requires first { InDomain first_year years m }
    requires last { InDomain first_year years (m +ℤ pos n) }
    requires length_bound { n ≤ LONGEST_SPAN }
    ensures value { result ≡ stretch_of first_year years m n }
    ensures rule { IsStretchOf first_year years m n result }
{
    match place(first_year, years, m) {
        Place::Plain { year } => {
            if m + i64::from(n) <= plain_end(first_year, years, year) {
                Stretch::Within { year }
            } else {
                Stretch::Across { year: year + 1 }
            }
        }
        Place::Blend { year, .. } => Stretch::Across { year },
    }
}
