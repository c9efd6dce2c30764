//! The cells that show a highest water.

/// A cell of a certificate of a highest water: consecutive minutes of the span, and the claim that
/// none of them has a greater value than the highest water, or an equal value before it.
#[derive(Clone, Copy, PartialEq, Eq)]
pub enum PeakCell {
    /// A cell of this number of minutes, from 2 to 1,024, that is under the highest water: by the
    /// bound on the curve's change in a minute, none of its values is greater, and none before the
    /// minute of the highest water is equal. It doesn't have the minute of the highest water.
    Under(u32),
    /// A single minute, which the check evaluates.
    Single,
}
