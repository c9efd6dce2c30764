//! The result of checking a highest water.

/// The result of checking a highest water and its cells: accepted, or the first fault. `cell` is
/// the number of the wrong cell, counted from 1.
#[derive(Clone, Copy, PartialEq, Eq)]
pub enum PeakVerdict {
    /// The cells have `covered` minutes together, and the span has `wanted`, a different number. If
    /// the cells have more minutes than an `i64` can count, `covered` is the greatest `i64`.
    WrongLength { covered: i64, wanted: i64 },
    /// The claimed minute isn't a minute of the span. The span's end isn't one of its minutes.
    Outside,
    /// A cell that is claimed to be under the highest water isn't: it has fewer than 2 or more than
    /// 1,024 minutes, or has the claimed minute, or the curve has no bound on its change there, or
    /// by this bound one of its values can be greater than the claimed one (or equal, before the
    /// claimed minute).
    NotUnder { cell: u32 },
    /// The curve's value at the claimed minute is `computed`, and the claimed value is `written`, a
    /// different number.
    WrongValue { written: i128, computed: i128 },
    /// A single minute has a greater value than the claimed one, or an equal value before the
    /// claimed minute.
    Above { cell: u32 },
    /// The claimed minute is the first minute of the span with the greatest value, and the claimed
    /// value is this value.
    Accepted,
}
