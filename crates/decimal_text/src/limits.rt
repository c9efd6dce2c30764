//! The greatest length of a text that is read.

/// The greatest length in bytes of a text that is read, 400,000,000. The numbers of the lines and
/// records in such a text fit 32 bits.
pub const MOST_BYTES: usize = 400_000_000;
