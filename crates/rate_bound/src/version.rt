//! The versions of the rates.

/// The version of the rule that bounds how much a curve changes in a minute; the bound over a cell (a
/// stretch of minutes) is the cell's rate. A certificate names the version of its cells.
#[derive(Clone, Copy, PartialEq, Eq)]
pub enum Version {
    /// A cell has a rate only if each of its minutes is outside the blends at new years.
    First,
    /// A cell with minutes in the blend at a new year has a rate too, if the rate is at most 4 * 10^34.
    Second,
}
