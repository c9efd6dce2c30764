//! The slope of a station as a curve.

ghost use Rattle.std.specs.Prelude.{◌≡◌, pos};
ghost use Rattle.station_curve.specs.Errors.{slope_error_of};
ghost use Rattle.station_curve.specs.Curves.{IsPrediction};
ghost use Rattle.rate_bound.specs.declared.version.Version.TheVariants.{First, Second};

use crate::rates::{blended_slope_rate, limited, plain_slope_rate};
use crate::stretching::stretch_of;
use crate::version::Version;
use curve_law::{Curve, Kind};
use station_curve::StationCurve;
use year_blend::Stretch;

/// The curve of a station's slope: the value rises past 0 at a low water, and falls to 0 or below
/// at a high water. No call allocates.
#[derive(Drop)]
pub struct TurnCurve<'a> {
    station: &'a StationCurve,
    version: Version,
    error: i128,
    evaluations: u64,
    ghost valid: { IsPrediction station.now },
    ghost bound: { error ≡ pos (slope_error_of station.now) },
}

impl<'a> TurnCurve<'a> {
    ghost use Rattle.rate_bound.specs.CurveSpecs.{turn_spec};

    /// Returns the curve, not yet evaluated, of the slope of `station`. A bound on the slope's
    /// change in a minute is known only outside the blends (less than an hour from a new year
    /// between two of the book's years).
    ///
    /// The program calls [`new`](TurnCurve::new) instead, with the version as an argument.
    pub fn over(station: &'a StationCurve) -> TurnCurve<'a>
        ensures curve_spec { (⟦<TurnCurve<'a> as Curve>⟧.state result).curve_model.curve_spec ≡ turn_spec First station.now }
        ensures count { (⟦<TurnCurve<'a> as Curve>⟧.state result).count ≡ 0 }
    {
        TurnCurve::new(station, Version::First)
    }

    /// Returns the curve, not yet evaluated, of the slope of `station`. A bound on the slope's
    /// change in a minute is known also in the blends (less than an hour from a new year between
    /// two of the book's years), unless it exceeds 4 * 10^34.
    ///
    /// The program calls [`new`](TurnCurve::new) instead, with the version as an argument.
    pub fn blended(station: &'a StationCurve) -> TurnCurve<'a>
        ensures curve_spec { (⟦<TurnCurve<'a> as Curve>⟧.state result).curve_model.curve_spec ≡ turn_spec Second station.now }
        ensures count { (⟦<TurnCurve<'a> as Curve>⟧.state result).count ≡ 0 }
    {
        TurnCurve::new(station, Version::Second)
    }

    /// Returns the curve, not yet evaluated, of the slope of `station`. By [`Version::First`] a
    /// bound on the slope's change in a minute is known only outside the blends at new years; by
    /// [`Version::Second`] also in them, unless it exceeds 4 * 10^34.
    pub fn new(station: &'a StationCurve, version: Version) -> TurnCurve<'a>
        ensures curve_spec { (⟦<TurnCurve<'a> as Curve>⟧.state result).curve_model.curve_spec ≡ turn_spec version station.now }
        ensures count { (⟦<TurnCurve<'a> as Curve>⟧.state result).count ≡ 0 }
    {
        station.limits_hold();
        TurnCurve {
            station,
            version,
            error: station.slope_error(),
            evaluations: 0,
        }
    }
}

impl<'a> Curve for TurnCurve<'a> {
    ghost use Rattle.rate_bound.specs.CurveStates.{turn_state};
    ghost use Rattle.rate_bound.specs.Workings.TurnLaw.{turn_lawful};
    ghost use Rattle.rate_bound.specs.Workings.Narrow.{slope_narrow, slope_close};

    ghost state = { λ c. turn_state c };

    ghost lawful = { λ c. turn_lawful c.version c.station.now c.valid };

    ghost narrow = { λ c. slope_narrow c.station.now c.valid };

    ghost close = { λ c m at. slope_close c.version c.station.now m c.valid at };

    fn first(&self) -> i64 {
        self.station.first()
    }

    fn last(&self) -> i64 {
        self.station.last()
    }

    fn value(&mut self, m: i64) -> i128 {
        self.evaluations += 1;
        self.station.slope(m)
    }

    fn approximate_value(&mut self, m: i64) -> i128 {
        self.evaluations += 1;
        self.station.approximate_slope(m)
    }

    fn exact_value(&self, m: i64, _approximate_value: i128) -> i128 {
        self.station.slope(m)
    }

    fn error(&self) -> i128 {
        self.error
    }

    #[inline(always)]
    fn rate(&self, a: i64, n: u32) -> Option<i128> {
        match stretch_of(self.station, a, n) {
            Stretch::Within { year } => Some(plain_slope_rate(&self.station.sums(year))),
            Stretch::Across { year } => match self.version {
                Version::First => None,
                Version::Second => limited(blended_slope_rate(
                    &self.station.sums(year - 1),
                    &self.station.sums(year),
                )),
            },
        }
    }

    fn note(&self, m: i64) -> i64 {
        self.station.millionths(m)
    }

    fn rising(&self) -> Kind {
        Kind::Low
    }

    fn falling(&self) -> Kind {
        Kind::High
    }

    fn evaluations(&self) -> u64 {
        self.evaluations
    }
}
