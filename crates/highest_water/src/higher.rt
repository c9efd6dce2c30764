//! The order of points (a minute and the value at it) by height.

ghost use Rattle.std.specs.Prelude.{◌≡◌};
ghost use Rattle.highest_water.specs.Peaks.{is_higher};
ghost use Rattle.highest_water.specs.Workings.Walk.{higher_of, raised_by};

use crate::peak_cell::PeakCell;
use crate::walk::LocatedCell;
use curve_law::Point;

/// Returns true if `point` is higher than `highest`: its value is greater, or is equal at an
/// earlier minute.
pub fn is_higher(highest: Point, point: Point) -> bool
    ensures { result ≡ is_higher highest.minute highest.value point.minute point.value }
{
    point.value > highest.value || (point.value == highest.value && point.minute < highest.minute)
}

/// Returns `point` if its value is greater than the value of `highest`, or is equal at an earlier
/// minute; otherwise `highest`.
pub fn higher_of(highest: Point, point: Point) -> Point
    ensures { result ≡ higher_of highest point }
{
    if is_higher(highest, point) {
        point
    } else {
        highest
    }
}

/// Returns the highest point known after the cell `found`, if `highest` was known before: the point
/// at which the cell begins if it is a single minute and higher (its value is greater, or equal at
/// an earlier minute), and otherwise `highest`.
pub fn raised_by(highest: Point, found: LocatedCell) -> Point
    ensures { result ≡ raised_by highest found }
{
    match found.cell {
        PeakCell::Under(_) => highest,
        PeakCell::Single => higher_of(highest, found.at),
    }
}
