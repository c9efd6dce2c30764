//! Writing local times as text.

ghost use Rattle.std.specs.Prelude.{◌≡◌, ◌+◌, ◌≤◌, ◌++◌, length};
ghost use Rattle.arrayvec.specs.ArrayString.{array_string_len};
ghost use Rattle.zone_time.specs.Locals.{IsWritten, IsLabel, IsLocal, time_text, label_text, local_text};

use crate::dates::{MINUTES_OF_DAY, push_ascii, write_clock, write_date};
use crate::local::{Label, Local};
use arrayvec::ArrayString;

/// Appends `local` and its label to `out`, as `2000-01-10 06:00 UTC` (20 bytes) or
/// `2000-01-10 01:00 -05:00` (23 bytes). The local year is from 0 to 9999, and an offset is from
/// -1560 to 1560 minutes. Nothing is allocated.
#[tactic(auto, unfolding(crate::specs::Locals::local_text))]
pub fn write_local<const N: usize>(local: &Local, out: &mut ArrayString<N>)
    requires local { IsLocal local.now }
    requires room { array_string_len out.old + 23 ≤ N }
    ensures bytes { out.new.bytes ≡ out.old.bytes ++ local_text local.now }
    ensures length_bound { array_string_len out.new ≤ array_string_len out.old + 23 }
{
    write_time(local.minute, out);
    push_ascii(' ', out);
    write_label(local.label, out);
}

/// Appends the local `minute`, counted from 1970-01-01 00:00, to `out` as `2000-01-10 06:00`, 16
/// bytes. The year is from 0 to 9999. Nothing is allocated.
#[tactic(auto, unfolding(crate::specs::Locals::time_text))]
pub fn write_time<const N: usize>(minute: i64, out: &mut ArrayString<N>)
    requires minute { IsWritten minute }
    requires room { array_string_len out.old + 16 ≤ N }
    ensures bytes { out.new.bytes ≡ out.old.bytes ++ time_text minute }
    ensures len { array_string_len out.new ≡ array_string_len out.old + 16 }
{
    write_date(minute.div_euclid(MINUTES_OF_DAY), out);
    push_ascii(' ', out);
    write_clock(minute.rem_euclid(MINUTES_OF_DAY) as u32, out);
}

#[tactic(auto, unfolding(crate::specs::Locals::label_text))]
fn write_label<const N: usize>(label: Label, out: &mut ArrayString<N>)
    requires label { IsLabel label }
    requires room { array_string_len out.old + 6 ≤ N }
    ensures bytes { out.new.bytes ≡ out.old.bytes ++ label_text label }
    ensures length_bound { array_string_len out.new ≤ array_string_len out.old + 6 }
{
    match label {
        Label::Utc => out.push_str("UTC"),
        Label::Minutes(utc_offset) => {
            push_ascii(if utc_offset < 0 { '-' } else { '+' }, out);
            write_clock(utc_offset.unsigned_abs(), out);
        }
    }
}
