//! Reading the text of a moment.

ghost use Rattle.std.specs.Prelude.{◌≡◌, ◌+◌, ◌*◌, ◌<◌, ◌≤◌, length, pos, ◌+ℤ◌, ◌*ℤ◌, IsTrue};
ghost use Rattle.std.specs.List.{list_all, zip};
ghost use Rattle.jiff_core.specs.Calendar.{IsEpochDay, days_from_civil};
ghost use Rattle.zone_time.specs.Moments.{moment_of, has_form, fits, pair_at, is_date as names_date};

use crate::dates::MINUTES_OF_DAY;
use jiff_core::civil::{Date, days_in_month};

const FORM: &[u8] = b"0000-00-00T00:00Z";

/// Returns the moment that `text` writes, in minutes since 1970-01-01T00:00Z. Returns `None` if
/// `text` isn't in the form `2000-01-10T00:00Z`, or if its date or time of day doesn't exist in the
/// years 1 to 9999.
///
/// # Examples
/// ```
/// assert_eq!(rt; read_moment(b"2000-01-10T00:00Z"), Some(15_791_040));
/// assert_eq!(rt; read_moment(b"2001-02-29T00:00Z"), None);
/// ```
#[tactic(auto, unfolding(crate::specs::Moments::has_form, crate::specs::Moments::moment_of))]
pub fn read_moment(text: &[u8]) -> Option<i64>
    ensures { result ≡ moment_of text.now }
{
    if !has_moment_form(text) {
        return None;
    }
    let year = 100 * pair(text, 0) + pair(text, 2);
    let (month, day) = (pair(text, 5), pair(text, 8));
    let (hour, minute) = (pair(text, 11), pair(text, 14));
    if is_date(year, month, day) && hour <= 23 && minute <= 59 {
        Some(moment(day_number(year, month, day), hour, minute))
    } else {
        None
    }
}

#[tactic(auto, unfolding(crate::specs::Moments::has_form))]
fn has_moment_form(text: &[u8]) -> bool
    ensures { result ≡ has_form text.now }
{
    text.len() == FORM.len() && all_bytes_fit(text)
}

fn all_bytes_fit(text: &[u8]) -> bool
    ensures { result ≡ list_all (λ (b, wanted). fits b wanted) (zip text.now FORM.now) }
{
    text.iter()
        .zip(FORM)
        .all(|(b, wanted)| byte_fits(*b, *wanted))
}

fn byte_fits(byte: u8, wanted: u8) -> bool
    ensures { result ≡ fits byte wanted }
{
    if wanted == b'0' {
        byte.is_ascii_digit()
    } else {
        byte == wanted
    }
}

fn pair(text: &[u8], at: usize) -> u32
    requires { at + 1 < length text.now }
    ensures value { result ≡ pair_at text.now at }
    ensures small { result < 2300 }
{
    let tens = text[at].saturating_sub(b'0');
    let ones = text[at + 1].saturating_sub(b'0');
    10 * tens as u32 + ones as u32
}

fn is_date(year: u32, month: u32, day: u32) -> bool
    ensures { result ≡ names_date year month day }
{
    let has_month = (1..=9999).contains(&year) && (1..=12).contains(&month);
    has_month && 1 <= day && day <= days_in_month(year as i16, month as u8) as u32
}

fn day_number(year: u32, month: u32, day: u32) -> i64
    requires { IsTrue (names_date year month day) }
    ensures value { result ≡ days_from_civil (pos year) month day }
    ensures bound { IsEpochDay result }
{
    Date::constrain(year as i16, month as u8, day as u8).to_unix_epoch_day() as i64
}

fn moment(day: i64, hour: u32, minute: u32) -> i64
    requires day { IsEpochDay day }
    requires hour { hour < 2300 }
    requires minute { minute < 2300 }
    ensures { result ≡ day *ℤ pos 1440 +ℤ pos (60 * hour + minute) }
{
    let start_of_day = day * MINUTES_OF_DAY;
    start_of_day + (60 * hour + minute) as i64
}
