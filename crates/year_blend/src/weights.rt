//! The weight of the later year in a blend.

ghost use Rattle.std.specs.Prelude.{◌≡◌, ◌≤◌, pos, ◌-ℤ◌, ◌≤ℤ◌};
ghost use Rattle.year_blend.specs.Weights.{weight_of, weight_slope_of, total_weight, IsWithinHourOfNewYear};

/// The sum of the weights of the earlier and the later year in a blend at a new year, the same at each
/// minute.
pub const TOTAL_WEIGHT: i64 = 4_147_200_000;

/// Returns the weight of the later year in a blend, from 0 to [`TOTAL_WEIGHT`] (4,147,200,000), `x`
/// minutes after the new year. `x` is from -60 to 60, negative before the new year.
pub fn weight(x: i64) -> i64
    requires { IsWithinHourOfNewYear x }
    ensures value { result ≡ weight_of x }
    ensures least { pos 0 ≤ℤ result }
    ensures most { result ≤ℤ pos total_weight }
{
    weight_after((x + 60) as u64) as i64
}

/// Returns the change per minute of the later year's weight in a blend, from 0 to 64,800,000, `x`
/// minutes after the new year. `x` is from -60 to 60, negative before the new year. The weight grows
/// from 0 to 4,147,200,000.
pub fn weight_slope(x: i64) -> i64
    requires { IsWithinHourOfNewYear x }
    ensures value { result ≡ weight_slope_of x }
    ensures least { pos 0 ≤ℤ result }
    ensures most { result ≤ℤ pos 64800000 }
{
    slope_after((x + 60) as u64) as i64
}

/// Returns the weight of the later year, of 4,147,200,000 in all, `t` minutes after the start of the
/// blend, 60 minutes before the new year.
fn weight_after(t: u64) -> u64
    requires { t ≤ 120 }
    ensures value { pos result ≡ weight_of (pos t -ℤ pos 60) }
    ensures most { result ≤ total_weight }
{
    t * t * t * (t * t + 24_000 - 300 * t)
}

/// Returns the change per minute of the weight of the later year, `t` minutes after the start of the
/// blend, 60 minutes before the new year.
fn slope_after(t: u64) -> u64
    requires { t ≤ 120 }
    ensures value { pos result ≡ weight_slope_of (pos t -ℤ pos 60) }
    ensures most { result ≤ 64800000 }
{
    let root = t * (120 - t);
    5 * (root * root)
}
