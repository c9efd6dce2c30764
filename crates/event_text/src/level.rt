//! Writing levels as text.

ghost use Rattle.std.specs.Prelude.{◌≡◌, ◌+◌, ◌≤◌, [], ◌++◌, length, replicate};
ghost use Rattle.arrayvec.specs.ArrayString.{array_string_len};
ghost use Rattle.decimal_text.specs.Rounding.{rounded_of};
ghost use Rattle.event_text.specs.Lines.{level_text, padded};

use arrayvec::ArrayString;
use decimal_text::{rounded, write};

/// Writes `level`, in millionths of its unit, to `out`, which must be empty, as a decimal with two
/// places, such as `-1.00`. It is rounded to hundredths, a half away from 0; a level that rounds to
/// 0 has no sign. Nothing is allocated.
pub fn write_level(level: i64, out: &mut ArrayString<24>)
    requires { out.old.bytes ≡ [] }
    ensures { out.new.bytes ≡ level_text level }
{
    write(hundredths(level), 2, out);
}

/// Appends `level`, in millionths of its unit, to `out` as a decimal with two places, right-aligned
/// in 9 columns. It is rounded to hundredths, a half away from 0.
pub(crate) fn push_level(level: i64, out: &mut ArrayString<96>)
    requires { array_string_len out.old + 24 ≤ 96 }
    ensures bytes { out.new.bytes ≡ out.old.bytes ++ padded 9 (level_text level) }
    ensures length_bound { array_string_len out.new ≤ array_string_len out.old + 24 }
{
    let mut text = ArrayString::new();
    write_level(level, &mut text);
    push_right(text.as_str(), out);
}

#[tactic(auto, unfolding(crate::specs::Lines::padded))]
fn push_right(text: &str, out: &mut ArrayString<96>)
    requires length_bound { length text.now ≤ 24 }
    requires room { array_string_len out.old + 24 ≤ 96 }
    ensures bytes { out.new.bytes ≡ out.old.bytes ++ padded 9 text.now }
    ensures length_bound { array_string_len out.new ≤ array_string_len out.old + 24 }
{
    push_spaces(9usize.saturating_sub(text.len()), out);
    out.push_str(text);
}

fn push_spaces(count: usize, out: &mut ArrayString<96>)
    requires { array_string_len out.old + count ≤ 96 }
    ensures bytes { out.new.bytes ≡ out.old.bytes ++ replicate count 32 }
    ensures len { array_string_len out.new ≡ array_string_len out.old + count }
{
    for _place in 0..count {
        out.push(' ');
    }
}

/// Returns `level`, in millionths, rounded to hundredths, a half away from 0.
fn hundredths(level: i64) -> i64
    ensures { result ≡ rounded_of level 10000 }
{
    rounded(level as i128, 10000) as i64
}
