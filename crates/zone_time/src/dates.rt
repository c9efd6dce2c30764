//! Writing dates and times of day as text.

ghost use Rattle.std.specs.Prelude.{◌≡◌, ◌+◌, ◌<◌, ◌≤◌, [], ◌∷◌, ◌++◌, pos, ◌+ℤ◌};
ghost use Rattle.arrayvec.specs.ArrayString.{array_string_len};
ghost use Rattle.zone_time.specs.Dates.{IsDay, date_of, date_text, clock_text, two_digits};

use arrayvec::ArrayString;
use decimal_text::push_digit;
use jiff_core::civil::Date;

/// The number of minutes in a day, 1440.
pub const MINUTES_OF_DAY: i64 = 1440;

/// Appends to `out` the date with the day number `day` (1970-01-01 is 0) in the form `2000-01-10`,
/// 10 bytes. The year is from 0 to 9999. Nothing is allocated.
#[tactic(auto, unfolding(crate::specs::Dates::date_text))]
pub fn write_date<const N: usize>(day: i64, out: &mut ArrayString<N>)
    requires day { IsDay day }
    requires room { array_string_len out.old + 10 ≤ N }
    ensures bytes { out.new.bytes ≡ out.old.bytes ++ date_text day }
    ensures len { array_string_len out.new ≡ array_string_len out.old + 10 }
{
    let date = date_from_day(day);
    let year = date.year as u32;
    push_pair(year / 100, out);
    push_pair(year % 100, out);
    push_ascii('-', out);
    push_pair(date.month as u32, out);
    push_ascii('-', out);
    push_pair(date.day as u32, out);
}

/// Appends `minutes` to `out` as hours and minutes, such as `05:30`, 5 bytes. Of 100 hours or more,
/// only the last two digits are written. Nothing is allocated.
#[tactic(auto, unfolding(crate::specs::Dates::clock_text))]
pub fn write_clock<const N: usize>(minutes: u32, out: &mut ArrayString<N>)
    requires room { array_string_len out.old + 5 ≤ N }
    ensures bytes { out.new.bytes ≡ out.old.bytes ++ clock_text minutes }
    ensures len { array_string_len out.new ≡ array_string_len out.old + 5 }
{
    push_pair(minutes / 60, out);
    push_ascii(':', out);
    push_pair(minutes % 60, out);
}

/// Appends the ASCII character `symbol`, one byte, to `out`.
pub fn push_ascii<const N: usize>(symbol: char, out: &mut ArrayString<N>)
    requires ascii { symbol < 128 }
    requires room { array_string_len out.old + 1 ≤ N }
    ensures bytes { out.new.bytes ≡ out.old.bytes ++ symbol ∷ [] }
    ensures len { array_string_len out.new ≡ array_string_len out.old + 1 }
{
    out.push(symbol);
}

fn date_from_day(day: i64) -> Date
    requires { IsDay day }
    ensures year { result.year ≡ pos (date_of day).year }
    ensures month { result.month ≡ (date_of day).month }
    ensures day { result.day ≡ (date_of day).day }
{
    Date::from_days_since_min(days_since_min(day))
}

/// Returns the number of days from -9999-01-01, the first day of `jiff`'s calendar, to the day
/// number `day` (1970-01-01 is 0).
fn days_since_min(day: i64) -> u32
    requires { IsDay day }
    ensures value { pos result ≡ day +ℤ pos 4371587 }
    ensures small { result ≤ 7304483 }
{
    (day + 4_371_587) as u32
}

#[tactic(auto, unfolding(crate::specs::Dates::two_digits))]
fn push_pair<const N: usize>(n: u32, out: &mut ArrayString<N>)
    requires { array_string_len out.old + 2 ≤ N }
    ensures bytes { out.new.bytes ≡ out.old.bytes ++ two_digits n }
    ensures len { array_string_len out.new ≡ array_string_len out.old + 2 }
{
    push_digit(n / 10 % 10, out);
    push_digit(n % 10, out);
}
