//! The range of the values in a table.

ghost use Rattle.std.specs.Prelude.{◌+◌, ◌<◌, ◌≤◌, ◌^◌};

/// A range of decimals with `places` decimal places, from 0 to 6: the numbers from `least` to
/// `least + bound - 1`, each divided by 10^`places`. `bound` isn't 0.
#[derive(Clone, Copy)]
pub(crate) struct Quantity {
    pub(crate) least: u32,
    pub(crate) bound: u32,
    pub(crate) places: u32,
    ghost some: { 0 < bound },
    ghost fits: { least + bound ≤ 2 ^ 32 },
    ghost written: { places ≤ 6 },
}
