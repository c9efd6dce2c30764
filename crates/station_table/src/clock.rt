//! Texts of hours and minutes, such as `0:30`.

ghost use Rattle.std.specs.Prelude.{◌≡◌, ◌≤◌, ◌==◌, None, IfSome, if◌then◌else◌};
ghost use Rattle.station_table.specs.Fields.{pair_of, minutes_of, clock_of};

/// Returns the number of minutes, from 0 to 5,999, that `text` writes as `H:MM` or `HH:MM`: hours
/// from 0 to 99, a colon, and minutes from 00 to 59. Returns `None` for any other text.
#[tactic(auto, unfolding(crate::specs::Fields::clock_of))]
pub fn clock(text: &[u8]) -> Option<u32>
    ensures exact { result ≡ clock_of text.now }
    ensures small { IfSome result (λ n. n ≤ 5999) }
{
    if text.len() == 4 {
        minutes(pair(b'0', text[0]), text[1], pair(text[2], text[3]))
    } else if text.len() == 5 {
        minutes(pair(text[0], text[1]), text[2], pair(text[3], text[4]))
    } else {
        None
    }
}

/// Returns the number of minutes in `hour` hours and `minute` minutes, or `None` if one of these
/// isn't given, `minute` exceeds 59, or `colon` isn't a colon.
fn minutes(hour: Option<u32>, colon: u8, minute: Option<u32>) -> Option<u32>
    requires { IfSome hour (λ n. n ≤ 99) }
    ensures exact { result ≡ (if colon == 58 then minutes_of hour minute else None) }
    ensures small { IfSome result (λ n. n ≤ 5999) }
{
    if colon != b':' {
        return None;
    }
    let hour = hour?;
    let minute = minute?;
    if minute > 59 {
        return None;
    }
    Some(60 * hour + minute)
}

/// Returns the number, from 0 to 99, that two decimal digits write, or `None` if one of the bytes
/// isn't a digit.
fn pair(tens: u8, ones: u8) -> Option<u32>
    ensures exact { result ≡ pair_of tens ones }
    ensures small { IfSome result (λ n. n ≤ 99) }
{
    if tens.is_ascii_digit() && ones.is_ascii_digit() {
        Some(10 * u32::from(tens - b'0') + u32::from(ones - b'0'))
    } else {
        None
    }
}
