//! The scales of the decimals of a file.

ghost use Rattle.std.specs.Prelude.{◌≡◌, ◌≤◌};
ghost use Rattle.harmonics_text.specs.Rules.{places_of, least_of, most_of};

/// The kind of a decimal in a harmonics file: a speed, an angle, a node factor or a height. It
/// determines the unit, with the decimal places that count, and the range.
#[derive(Clone, Copy)]
pub enum Scale {
    /// A constituent's speed, in ten-millionths of a degree per hour: from 0 to 360 degrees per
    /// hour.
    Speed,
    /// An equilibrium argument or an epoch, in ten-millionths of a degree: from -720 to 720
    /// degrees.
    Angle,
    /// A node factor, in millionths: from 0 to 10.
    Factor,
    /// A datum or an amplitude, in millionths of the station's unit: from -10,000 to 10,000 units.
    Height,
}

impl Scale {
    /// Returns how many decimal places count: 7 for speeds and angles, which are in ten-millionths,
    /// and 6 for factors and heights, which are in millionths.
    pub fn places(self) -> u32
        ensures exact { result ≡ places_of self }
        ensures count_bound { result ≤ 9 }
    {
        match self {
            Scale::Speed | Scale::Angle => 7,
            Scale::Factor | Scale::Height => 6,
        }
    }

    /// Returns the least value of this kind: in ten-millionths of a degree (or of a degree per
    /// hour) for angles and speeds, and in millionths for factors and heights.
    pub fn least(self) -> i64
        ensures { result ≡ least_of self }
    {
        match self {
            Scale::Speed | Scale::Factor => 0,
            Scale::Angle => -7_200_000_000,
            Scale::Height => -10_000_000_000,
        }
    }

    /// Returns the greatest value of this kind: in ten-millionths of a degree (or of a degree per
    /// hour) for angles and speeds, and in millionths for factors and heights.
    pub fn most(self) -> i64
        ensures { result ≡ most_of self }
    {
        match self {
            Scale::Speed => 3_600_000_000,
            Scale::Angle => 7_200_000_000,
            Scale::Factor => 10_000_000,
            Scale::Height => 10_000_000_000,
        }
    }
}
