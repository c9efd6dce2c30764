//! Scaling a level of the reference.

ghost use Rattle.std.specs.Prelude.{◌≡◌, ◌*◌, ◌≤◌, ◌+ℤ◌, ◌*ℤ◌, unsigned_abs};
ghost use Rattle.station_table.specs.Offsets.{IsOffset};
ghost use Rattle.event_list.specs.Shifts.{scaled};

use decimal_text::rounded;
use station_table::Offset;

/// Returns the station's level for `level`, a level of its reference station of at most 11,000,000,000
/// in size. `level` is multiplied by the factor of `offset` and rounded to a whole number, and then the
/// height of `offset` is added. Levels are in millionths of the unit.
pub fn scaled(offset: &Offset, level: i64) -> i64
    requires range { IsOffset offset.now }
    requires level { unsigned_abs level ≤ 11000000000 }
    ensures { result ≡ scaled offset.now level }
{
    let level = rounded(product(level, offset.times), 1_000_000);
    raised(level, offset.plus)
}

/// Returns the product of a level and a factor, both in millionths.
fn product(level: i64, times: i64) -> i128
    requires level { unsigned_abs level ≤ 11000000000 }
    requires times { unsigned_abs times ≤ 100000000 }
    ensures exact { result ≡ level *ℤ times }
    ensures size { unsigned_abs result ≤ 11000000000 * 100000000 }
{
    i128::from(level) * i128::from(times)
}

/// Returns the level with the height `plus` added, both in millionths of the unit.
fn raised(level: i128, plus: i64) -> i64
    requires level { unsigned_abs level ≤ 2000000000000 }
    requires plus { unsigned_abs plus ≤ 10000000000 }
    ensures { result ≡ level +ℤ plus }
{
    level as i64 + plus
}
