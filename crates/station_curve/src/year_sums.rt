//! Sums over the waves of one year.

ghost use Rattle.std.specs.Prelude.{◌≡◌, ◌^◌, ◌≤◌};
ghost use Rattle.station_curve.specs.Waves.{amount_of, steepness_of};
ghost use Rattle.station_curve.specs.Sums.{sums_of};

use crate::wave::Wave;

/// Four sums over the waves of one station in one year. They bound the level and the slope by the
/// year's constants, and the change of each in a minute. None is negative.
#[derive(Clone, Copy, PartialEq, Eq)]
pub struct Sums {
    /// The sum of the absolute values of the amplitudes, in millionths of the station's unit. The level
    /// by the year's constants, in billionths of a millionth of the station's unit, differs from the
    /// mean level by at most 10^9 times this sum.
    pub amount: i128,
    /// The sum of the absolute value of the amplitude, in millionths of the station's unit, multiplied
    /// by the speed, in units of 1/600,000,000 degree a minute. The slope by the year's constants, in
    /// billionths of a millionth of the station's unit a minute, multiplied by 34,377,467,708 (the
    /// units of angle in a radian), is at most 10^9 times this sum in absolute value.
    pub steep: i128,
    /// The sum of the absolute value of the amplitude, in millionths of the station's unit, multiplied
    /// by the greatest change of the wave's sine in a minute, in billionths. It bounds the change in a
    /// minute of the level by the year's constants, in billionths of a millionth of the station's unit.
    pub near: i128,
    /// The sum of the absolute value of the amplitude multiplied by the speed and by the greatest
    /// change of the wave's sine in a minute. It bounds the change in a minute of the slope by the
    /// year's constants, in billionths of a millionth of the station's unit a minute, multiplied by
    /// 34,377,467,708 (the units of angle in a radian).
    pub far: i128,
}

/// Returns four sums over `waves`, the waves of one station in one year: `amount` of the absolute
/// values of the amplitudes, at most 10^9 millionths; `steep` of amplitude times speed, at most
/// 10^17; and `near` and `far`, bounds on the change of the level and of the slope in a minute. The
/// fields of [`Sums`] say the units.
pub fn sums_of_waves(waves: &[Wave]) -> Sums
    requires amount { amount_of waves.now ≤ 10 ^ 9 }
    requires steepness { steepness_of waves.now ≤ 10 ^ 17 }
    ensures { result ≡ sums_of waves.now }
{
    let mut amount = 0;
    let mut steep = 0;
    let mut near = 0;
    let mut far = 0;
    for wave in waves {
        let parts = wave.sums();
        amount += parts.amount;
        steep += parts.steep;
        near += parts.near;
        far += parts.far;
    }
    Sums {
        amount,
        steep,
        near,
        far,
    }
}
