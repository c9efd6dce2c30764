//! Writing whole numbers of steps of `1 / 10^places` as decimals.

ghost use Rattle.std.specs.Prelude.{◌≡◌, ℕ, ◌+◌, ◌/◌, ◌^◌, ◌<◌, ◌≤◌, [], ◌∷◌, ◌++◌, length, unsigned_abs};
ghost use Rattle.arrayvec.specs.ArrayString.{array_string_len};
ghost use Rattle.decimal_text.specs.Decimal.{read_of};
ghost use Rattle.decimal_text.specs.Writing.{write_of, whole_of, minus_of, fraction_of, last_digits};

use crate::digit::push_digit;
use arrayvec::ArrayString;
use itoa::Buffer;

/// Writes `value / 10^places` to `out`, which is empty, as a decimal with exactly `places` digits
/// after the point; `places` is from 0 to 6.
///
/// The decimal has at least one digit before the point, `-` if the value is negative and no sign
/// otherwise, and no point if `places` is 0. If it has at most 18 digits before the point,
/// [`read`](crate::read) returns `value` for it. It doesn't allocate.
///
/// # Examples
/// ```
/// let mut out = ArrayString::new();
/// write(-5, 2, &mut out);
/// assert_eq!(rt; out.as_str(), "-0.05");
/// ```
pub fn write(value: i64, places: u32, out: &mut ArrayString<24>)
    requires empty { out.old.bytes ≡ [] }
    requires count_bound { places ≤ 6 }
    ensures exact { out.new.bytes ≡ write_of value places }
    ensures reads_back { length (whole_of value places) ≤ 18 → read_of out.new.bytes places ≡ Ok value }
{
    push_minus(value, out);
    let size = value.unsigned_abs();
    let mut buffer = Buffer::new();
    out.push_str(buffer.format(without_last(size, places)));
    push_fraction(size, places, out);
}

/// Appends `-` to `out` if `value` is negative.
fn push_minus(value: i64, out: &mut ArrayString<24>)
    requires { length out.old.bytes < 24 }
    ensures { out.new.bytes ≡ out.old.bytes ++ minus_of value }
{
    if value < 0 {
        out.push('-');
    }
}

/// Appends the point and the last `places` digits of `size` to `out`, or nothing if `places` is 0.
fn push_fraction(size: u64, places: u32, out: &mut ArrayString<24>)
    requires count_bound { places ≤ 6 }
    requires room { length out.old.bytes + 1 + places ≤ 24 }
    ensures { out.new.bytes ≡ out.old.bytes ++ fraction_of places size }
{
    if places > 0 {
        out.push('.');
        push_last_digits(size, places, out);
    }
}

/// Appends the last `places` digits of `size` to `out`, with zeros at the start if `size` has less.
fn push_last_digits(size: u64, places: u32, out: &mut ArrayString<24>)
    requires count_bound { places ≤ 6 }
    requires room { length out.old.bytes + places ≤ 24 }
    ensures { out.new.bytes ≡ out.old.bytes ++ last_digits places size }
{
    for exponent in (0..places).rev() {
        push_digit((without_last(size, exponent) % 10) as u32, out);
    }
}

/// Returns `size` divided by 10^`places`, rounded down; `places` is from 0 to 6. Each divisor is a
/// constant, for which the compiler multiplies instead of dividing.
fn without_last(size: u64, places: u32) -> u64
    requires { places ≤ 6 }
    ensures { result ≡ size / 10 ^ places }
{
    match places {
        0 => size,
        1 => size / 10,
        2 => size / 100,
        3 => size / 1_000,
        4 => size / 10_000,
        5 => size / 100_000,
        _ => size / 1_000_000,
    }
}
