//! Division with rounding to the nearest whole number.

ghost use Rattle.std.specs.Prelude.{◌≡◌, ◌+◌, ◌*◌, ◌/◌, ◌^◌, ◌<◌, ◌≤◌, unsigned_abs};
ghost use Rattle.decimal_text.specs.Rounding.{rounded_of, half_up};

/// Returns `value / unit` rounded to the nearest whole number, a half away from 0. `unit` isn't 0,
/// and `value` is below `2^126` in absolute value.
pub fn rounded(value: i128, unit: u64) -> i128
    requires some { 0 < unit }
    requires room { unsigned_abs value < 2 ^ 126 }
    ensures exact { result ≡ rounded_of value unit }
    ensures small { unsigned_abs result ≤ half_up (unsigned_abs value) unit }
{
    let size = rounded_size(value.unsigned_abs(), unit) as i128;
    if value < 0 { -size } else { size }
}

/// Returns `size / unit` rounded to the nearest whole number, a half upwards.
fn rounded_size(size: u128, unit: u64) -> u128
    requires some { 0 < unit }
    requires room { size < 2 ^ 126 }
    ensures exact { result ≡ half_up size unit }
    ensures small { result ≤ 2 ^ 126 }
{
    let unit = u128::from(unit);
    (2 * size + unit) / (2 * unit)
}

/// Returns `value / unit` rounded to the nearest whole number, a half away from 0, as [`rounded`]
/// does, but with 64-bit arithmetic, which is faster. `unit` isn't 0, and `value` is below `2^61`
/// in absolute value.
pub fn rounded_short(value: i64, unit: u32) -> i64
    requires some { 0 < unit }
    requires room { unsigned_abs value < 2 ^ 61 }
    ensures exact { result ≡ rounded_of value unit }
    ensures small { unsigned_abs result ≤ half_up (unsigned_abs value) unit }
{
    let size = short_size(value.unsigned_abs(), u64::from(unit)) as i64;
    if value < 0 { -size } else { size }
}

/// Returns `size / unit` rounded to the nearest whole number, a half upwards.
fn short_size(size: u64, unit: u64) -> u64
    requires some { 0 < unit }
    requires unit { unit < 2 ^ 32 }
    requires room { size < 2 ^ 61 }
    ensures exact { result ≡ half_up size unit }
    ensures small { result ≤ 2 ^ 62 }
{
    (unit + 2 * size) / (2 * unit)
}
