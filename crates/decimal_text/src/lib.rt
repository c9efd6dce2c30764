//! Owned texts and lists, decimals as texts, and rounding.
//!
//! [`read`] converts a decimal to a whole number of steps of `1 / 10^places`, and [`write`] does
//! the reverse. [`digits`] and [`wide_digits`] read whole numbers of up to 18 and up to 38 digits.
//! [`rounded`] and [`rounded_short`] divide and round. [`are_name_bytes`] checks the bytes of a
//! name.
//!
//! In contracts a [`Text`] is the list of its UTF-8 bytes; [`Bytes`], [`Numbers`] and [`Words`] are
//! the lists of their items. Only the functions called `copy` and [`Text::from_str`] allocate.
#![tactic(auto)]

mod bytes;
mod digit;
mod fault;
mod laws;
mod limits;
mod names;
mod numbers;
mod reading;
mod rounding;
mod sign;
mod steps;
mod text;
mod whole;
mod words;
mod writing;

pub use bytes::Bytes;
pub use digit::push_digit;
pub use fault::DecimalFault;
pub use laws::{
    reads_its_fraction, worked_digits, worked_limits, worked_readings, worked_roundings,
    worked_writings,
};
pub use limits::MOST_BYTES;
pub use names::are_name_bytes;
pub use numbers::Numbers;
pub use reading::read;
pub use rounding::{rounded, rounded_short};
pub use sign::split_sign;
pub use text::Text;
pub use whole::{are_digits, digits, digits_value, wide_digits, wide_digits_value};
pub use words::Words;
pub use writing::write;
