//! The reasons why a station has no curve.

ghost use Rattle.std.specs.Prelude.{◌≡◌};
ghost use Rattle.station_curve.specs.Curves.{is_hydraulic};

use harmonics_book::Units;
use std::alloc::{AllocError, AllocFailed};
use thiserror::Error;

/// The reason why a station has no curve, and so no predictions.
#[derive(Clone, Copy, Debug, PartialEq, Eq, Error)]
pub enum CurveFault {
    /// The station's unit is `knots^2`: it is a hydraulic current.
    #[error("a hydraulic current")]
    Hydraulic,
    /// The absolute values of the amplitudes in the calendar year `year` sum to more than 1,000,000,000
    /// millionths of the station's unit. It is the book's first year beyond a limit.
    #[error("too large in {year}")]
    TooLarge { year: i32 },
    /// The absolute values of the amplitudes in the calendar year `year`, in millionths of the
    /// station's unit, each multiplied by the speed in units of 1/600,000,000 degree a minute, sum to
    /// more than 10^17. It is the book's first year beyond a limit.
    #[error("too steep in {year}")]
    TooSteep { year: i32 },
    #[error("no memory")]
    NoMemory,
}

impl From<AllocError> for CurveFault {
    ghost use Rattle.std.specs.Prelude.{◌≡◌};
    ghost use Rattle.station_curve.specs.declared.fault.CurveFault.TheVariants.{NoMemory};

    ghost from_gives = { λ _ e. e ≡ NoMemory };

    fn from(_error: AllocError) -> CurveFault {
        CurveFault::NoMemory
    }
}

impl<T: Drop> From<AllocFailed<T>> for CurveFault {
    ghost use Rattle.std.specs.Prelude.{◌≡◌};
    ghost use Rattle.station_curve.specs.declared.fault.CurveFault.TheVariants.{NoMemory};

    ghost from_gives = { λ _ e. e ≡ NoMemory };

    fn from(_error: AllocFailed<T>) -> CurveFault {
        CurveFault::NoMemory
    }
}

/// Returns true if `units` is `knots^2`, the unit of a hydraulic current: its speed is the square root
/// of the predicted value.
pub fn is_hydraulic(units: Units) -> bool
    ensures { result ≡ is_hydraulic units }
{
    matches!(units, Units::KnotsSquared)
}
