//! The errors of reading a decimal.

/// The reason why a text can't be read as a decimal with a given number of decimal places. If
/// several apply, it is the first in this order.
#[derive(Clone, Copy, Debug, PartialEq, Eq)]
pub enum DecimalFault {
    /// The text isn't an optional sign, digits, and an optional point with or without digits, or it
    /// has no digit.
    BadForm,
    /// The text has more than 18 digits before its point, zeros included.
    TooLong,
    /// A digit after the decimal places that the caller allows isn't 0.
    TooFine,
}
