//! Angles in whole units.

ghost use Rattle.std.specs.Prelude.{◌≡◌, pos};
ghost use Rattle.std.specs.Int.{int_rem_euclid};
ghost use Rattle.fixed_sine.specs.Circle.{circle, IsOnCircle};

/// The number of units of angle in a degree: an angle is a whole number of units of 1/600,000,000
/// degree.
pub const DEGREE: i64 = 600_000_000;

/// The number of units of 1/600,000,000 degree in a full circle.
pub const CIRCLE: i64 = 216_000_000_000;

/// The number of units of 1/600,000,000 degree in a radian, rounded to the nearest whole number.
pub const RADIAN: i64 = 34_377_467_708;

/// Returns the angle `x`, in units of 1/600,000,000 degree, reduced to one full circle: `x` modulo
/// `CIRCLE`, from 0 up to but not including `CIRCLE`, also for a negative `x`.
pub fn reduce(x: i128) -> i64
    ensures value { result ≡ int_rem_euclid x (pos circle) }
    ensures range { IsOnCircle result }
{
    match i64::try_from(x) {
        Ok(short) => short.rem_euclid(CIRCLE),
        Err(_) => x.rem_euclid(CIRCLE as i128) as i64,
    }
}
