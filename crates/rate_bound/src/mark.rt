//! The level of a station less a mark, as a curve.

ghost use Rattle.std.specs.Prelude.{◌≡◌, ◌*◌, pos, true, unsigned_abs};
ghost use Rattle.std.specs.Bool.{OnTrue};
ghost use Rattle.station_curve.specs.Errors.{level_error_of};
ghost use Rattle.station_curve.specs.Curves.{IsPrediction};
ghost use Rattle.rate_bound.specs.Scale.{IsScale};
ghost use Rattle.rate_bound.specs.declared.version.Version.TheVariants.{First, Second};

use crate::marking::{over_mark, scaled};
use crate::rates::{blended_level_rate, plain_level_rate};
use crate::stretching::stretch_of;
use crate::version::Version;
use curve_law::{Curve, Kind};
use station_curve::StationCurve;
use year_blend::Stretch;

/// The curve of a station's level less a mark; the value changes sign at each crossing of the mark.
/// The station's level is the reference station's level multiplied by `times` millionths, plus
/// `plus` millionths of the unit. No call allocates.
#[derive(Drop)]
pub struct MarkCurve<'a> {
    station: &'a StationCurve,
    version: Version,
    times: i64,
    plus: i64,
    mark: i64,
    slack: bool,
    error: i128,
    evaluations: u64,
    ghost valid: { IsPrediction station.now },
    ghost scale: { IsScale times plus mark },
    ghost bound: { error ≡ pos (unsigned_abs times * level_error_of station.now) },
}

impl<'a> MarkCurve<'a> {
    ghost use Rattle.rate_bound.specs.CurveSpecs.{mark_spec};

    /// Returns the curve, not yet evaluated, of a level less `mark`: the level of the reference
    /// `station`, multiplied by `times` millionths, plus `plus`. A bound on the curve's change is
    /// known only outside the blends (less than an hour from a new year between two of the book's
    /// years). `times` is from 1 to 100,000,000, and `plus` and `mark` are from -10,000,000,000 to
    /// 10,000,000,000 millionths of the unit. If `slack` is true, `mark` is 0, and the changes of
    /// sign are a current's slack waters; otherwise they are crossings of the mark.
    ///
    /// The program calls [`new`](MarkCurve::new) instead, with the version as an argument.
    pub fn over(station: &'a StationCurve, times: i64, plus: i64, mark: i64, slack: bool) -> Self
        requires scale { IsScale times plus mark }
        requires slack { OnTrue slack (mark ≡ pos 0) }
        ensures curve_spec { (⟦<MarkCurve<'a> as Curve>⟧.state result).curve_model.curve_spec
            ≡ mark_spec First station.now times plus mark slack }
        ensures count { (⟦<MarkCurve<'a> as Curve>⟧.state result).count ≡ 0 }
    {
        MarkCurve::new(station, Version::First, times, plus, mark, slack)
    }

    /// Returns the curve, not yet evaluated, of a level less `mark`: the level of the reference
    /// `station`, multiplied by `times` millionths, plus `plus`. A bound on the curve's change is
    /// known in the blends at new years too. `times` is from 1 to 100,000,000, and `plus` and
    /// `mark` are from -10,000,000,000 to 10,000,000,000 millionths of the unit. If `slack` is
    /// true, `mark` is 0, and the changes of sign are a current's slack waters; otherwise they are
    /// crossings of the mark.
    pub fn blended(station: &'a StationCurve, times: i64, plus: i64, mark: i64, slack: bool) -> Self
        requires scale { IsScale times plus mark }
        requires slack { OnTrue slack (mark ≡ pos 0) }
        ensures curve_spec { (⟦<MarkCurve<'a> as Curve>⟧.state result).curve_model.curve_spec
            ≡ mark_spec Second station.now times plus mark slack }
        ensures count { (⟦<MarkCurve<'a> as Curve>⟧.state result).count ≡ 0 }
    {
        MarkCurve::new(station, Version::Second, times, plus, mark, slack)
    }

    /// Returns the curve, not yet evaluated, of a level less `mark`: the level of the reference
    /// `station`, multiplied by `times` millionths, plus `plus`. By [`Version::First`] a bound on
    /// the curve's change is known only outside the blends at new years, by [`Version::Second`]
    /// also in them. `times` is from 1 to 100,000,000, and `plus` and `mark` are from
    /// -10,000,000,000 to 10,000,000,000 millionths of the unit. If `slack` is true, `mark` is 0,
    /// and the changes of sign are a current's slack waters; otherwise they are crossings of the
    /// mark.
    pub fn new(
        station: &'a StationCurve,
        version: Version,
        times: i64,
        plus: i64,
        mark: i64,
        slack: bool,
    ) -> MarkCurve<'a>
        requires scale { IsScale times plus mark }
        requires slack { OnTrue slack (mark ≡ pos 0) }
        ensures curve_spec { (⟦<MarkCurve<'a> as Curve>⟧.state result).curve_model.curve_spec
            ≡ mark_spec version station.now times plus mark slack }
        ensures count { (⟦<MarkCurve<'a> as Curve>⟧.state result).count ≡ 0 }
    {
        station.limits_hold();
        MarkCurve {
            station,
            version,
            times,
            plus,
            mark,
            slack,
            error: scaled(times, station.level_error()),
            evaluations: 0,
        }
    }
}

impl<'a> Curve for MarkCurve<'a> {
    ghost use Rattle.rate_bound.specs.CurveStates.{mark_state};
    ghost use Rattle.rate_bound.specs.Workings.MarkLaw.{mark_lawful};
    ghost use Rattle.rate_bound.specs.Workings.Narrow.{level_narrow, level_close};

    ghost state = { λ c. mark_state c };

    ghost lawful = { λ c. mark_lawful c.version c.station.now c.times c.plus c.mark c.slack c.valid c.scale };

    ghost narrow = { λ c. level_narrow c.station.now c.times c.plus c.mark c.valid c.scale };

    ghost close = { λ c m at. level_close c.version c.station.now c.times c.plus c.mark c.slack m c.valid at };

    fn first(&self) -> i64 {
        self.station.first()
    }

    fn last(&self) -> i64 {
        self.station.last()
    }

    fn value(&mut self, m: i64) -> i128 {
        self.evaluations += 1;
        over_mark(self.times, self.plus, self.mark, self.station.level(m))
    }

    fn approximate_value(&mut self, m: i64) -> i128 {
        self.evaluations += 1;
        over_mark(
            self.times,
            self.plus,
            self.mark,
            self.station.approximate_level(m),
        )
    }

    fn exact_value(&self, m: i64, _approximate_value: i128) -> i128 {
        over_mark(self.times, self.plus, self.mark, self.station.level(m))
    }

    fn error(&self) -> i128 {
        self.error
    }

    #[inline(always)]
    fn rate(&self, a: i64, n: u32) -> Option<i128> {
        match stretch_of(self.station, a, n) {
            Stretch::Within { year } => {
                Some(scaled(self.times, plain_level_rate(&self.station.sums(year))))
            }
            Stretch::Across { year } => match self.version {
                Version::First => None,
                Version::Second => Some(scaled(
                    self.times,
                    blended_level_rate(&self.station.sums(year - 1), &self.station.sums(year)),
                )),
            },
        }
    }

    fn note(&self, m: i64) -> i64 {
        self.station.millionths(m)
    }

    fn rising(&self) -> Kind {
        if self.slack {
            Kind::FloodBegins
        } else {
            Kind::MarkRising
        }
    }

    fn falling(&self) -> Kind {
        if self.slack {
            Kind::EbbBegins
        } else {
            Kind::MarkFalling
        }
    }

    fn evaluations(&self) -> u64 {
        self.evaluations
    }
}
