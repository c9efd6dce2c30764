//! The names of units.

ghost use Rattle.std.specs.Prelude.{◌≡◌, ◌≤◌, length};
ghost use Rattle.event_text.specs.Lines.{text_of_unit};

use harmonics_book::Units;

/// Returns the name of a unit in printed lines, such as `feet` or `knots^2`: ASCII of at most 7
/// bytes.
#[tactic(auto, unfolding(crate::specs::Lines::text_of_unit))]
pub fn unit_text(units: Units) -> &'static str
    ensures text { result.now ≡ text_of_unit units }
    ensures length_bound { length result.now ≤ 7 }
{
    match units {
        Units::Feet => "feet",
        Units::Meters => "meters",
        Units::Knots => "knots",
        Units::KnotsSquared => "knots^2",
    }
}
