//! Reading the lines of a certificate of a highest water.

ghost use Rattle.std.specs.Prelude.{◌≡◌};
ghost use Rattle.peak_text.specs.Workings.PeakLineReading.{value_of, under_for, under_of, cell_of};

use cert_text::{after, parse_number, size_of};
use curve_law::MOST_MINUTES;
use highest_water::PeakCell;

/// The greatest number of decimal digits of a value.
const VALUE_DIGITS: usize = 37;

/// The greatest number of decimal digits of the minutes of a cell.
const MINUTE_DIGITS: usize = 4;

/// Returns the value of the highest water in `line`, which is `value ` and a whole number of at
/// most 37 digits, without its LF. Its unit is 10^-21 of the reference station's unit, times
/// 4,147,200,000 (the total weight of a blend). Returns `None` if `line` isn't such a line.
#[tactic(auto, unfolding(crate::specs::Workings::PeakLineReading::value_of))]
pub fn value_of(line: &[u8]) -> Option<i128>
    ensures { result ≡ value_of line.now }
{
    parse_number(after(b"value ".as_slice(), line)?, VALUE_DIGITS)
}

/// Returns a cell of `minutes` that is under the highest water, or `None` unless `minutes` is from
/// 2 to 1,024.
fn under_for(minutes: u128) -> Option<PeakCell>
    ensures { result ≡ under_for minutes }
{
    if 2 <= minutes && minutes <= u128::from(MOST_MINUTES) {
        Some(PeakCell::Under(minutes as u32))
    } else {
        None
    }
}

/// Returns the cell under the highest water in a line such as `u 1024`, or `None` if `line` isn't
/// such a line.
#[tactic(auto, unfolding(crate::specs::Workings::PeakLineReading::under_of))]
fn under_of(line: &[u8]) -> Option<PeakCell>
    ensures { result ≡ under_of line.now }
{
    under_for(size_of(after(b"u ".as_slice(), line)?, MINUTE_DIGITS)?)
}

/// Returns the cell in `line`, which is without its LF: one minute for `m`, or 2 to 1,024 minutes
/// under the highest water for a line such as `u 1024`. Returns `None` if `line` isn't such a line.
#[tactic(auto, unfolding(crate::specs::Workings::PeakLineReading::cell_of))]
pub fn cell_of(line: &[u8]) -> Option<PeakCell>
    ensures { result ≡ cell_of line.now }
{
    if line == b"m".as_slice() {
        return Some(PeakCell::Single);
    }
    under_of(line)
}
