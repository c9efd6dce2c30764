//! Years and days of the UTC calendar.

ghost use Rattle.std.specs.Prelude.{◌≡◌, pos, ◌+ℤ◌, ◌≤ℤ◌, ◌<ℤ◌};
ghost use Rattle.jiff_core.specs.Calendar.{days_from_civil, IsYear, IsEpochDay};
ghost use Rattle.year_blend.specs.Years.{year_start_of, IsYearInReach};

use jiff_core::civil::Date;

/// The number of minutes in a day.
pub const DAY: i64 = 1_440;

/// Returns the first minute of the UTC year `y`, in minutes since 1970-01-01T00:00Z (negative before
/// 1970). `y` is from 2 to 9300.
pub fn year_start(y: i32) -> i64
    requires { IsYearInReach y }
    ensures { result ≡ year_start_of y }
{
    DAY * new_years_day(y)
}

/// Returns the day number of 1 January of the year `y`, in days since 1970-01-01 (negative before
/// 1970). `y` is from -9999 to 9999.
pub fn new_years_day(y: i32) -> i64
    requires { IsYear y }
    ensures value { result ≡ days_from_civil y 1 1 }
    ensures bound { IsEpochDay result }
{
    Date::constrain(y as i16, 1, 1).to_unix_epoch_day() as i64
}

/// Returns the calendar year, from -9999 to 9999, that contains the day with the number `day`, in
/// days since 1970-01-01 (negative before 1970), from -4,371,587 to 2,932,896.
pub fn year_of_day(day: i64) -> i32
    requires { IsEpochDay day }
    ensures begun { days_from_civil result 1 1 ≤ℤ day }
    ensures ongoing { day <ℤ days_from_civil (result +ℤ pos 1) 1 1 }
    ensures year { IsYear result }
{
    match Date::from_unix_epoch_day(day) {
        Ok(date) => date.year as i32,
        Err(_) => unreachable!(),
    }
}
