//! Theorems about dates, the texts of moments, and zone files.

ghost use Rattle.std.specs.Prelude.{◌≡◌, ℕ, ℤ, pos, List, Some};
ghost use Rattle.std.specs.Bool.{Decides};
ghost use Rattle.jiff_core.specs.Calendar.{IsCivilDate, days_from_civil};
ghost use Rattle.jiff_core.specs.Timestamp.{nanos_of_seconds};
ghost use Rattle.jiff_tz.specs.declared.posix.TimeZone.{TimeZone};
ghost use Rattle.jiff_tz.specs.declared.tzif.Tzif.{Tzif};
ghost use Rattle.jiff_tz.specs.PosixText.{tz_view};
ghost use Rattle.jiff_tz.specs.Tzif.{offset_at, tzif_view};
ghost use Rattle.jiff_tz.specs.TzifAgree.{FooterAgrees};
ghost use Rattle.jiff_tz.specs.TzifText.{TransitionText};
ghost use Rattle.zone_time.specs.Dates.{IsDay, date_of};
ghost use Rattle.zone_time.specs.Moments.{IsMoment, moment_text, moment_of};
ghost use Rattle.zone_time.specs.ZoneFiles.{seconds_ahead, goes_on};

/// Proves two facts about each day number (1970-01-01 is 0) in the years 0 to 9999: the definition
/// `date_of` gives a date of `jiff`'s calendar, and the day number that `jiff` computes for this
/// date is the given one.
pub fn days_have_their_date()
    ensures civil { (day : ℤ) → IsDay day →
        IsCivilDate (pos (date_of day).year) (date_of day).month (date_of day).day }
    ensures number { (day : ℤ) → IsDay day →
        days_from_civil (pos (date_of day).year) (date_of day).month (date_of day).day ≡ day }
{}

/// Proves that reading the text of a moment (a minute of the years 1 to 9999, counted from
/// 1970-01-01T00:00Z) returns the moment, and that any text that reads as a moment is this moment's
/// text.
pub fn moments_have_one_text()
    ensures read { (m : ℤ) → IsMoment m → moment_of (moment_text m) ≡ Some m }
    ensures written { (text : List ℕ) (m : ℤ) →
        moment_of text ≡ Some m → IsMoment m × (moment_text m ≡ text) }
{}

/// Proves that at each second the clock of a zone file is as far ahead of universal time as `jiff`
/// computes. Also proves that `goes_on`, which says that a rule gives the clock type of a table's
/// last row at that row's second, is true exactly if `jiff`'s condition `FooterAgrees` holds.
/// `tzif_view` and `tz_view` turn `jiff`'s file and rule into the lists and numbers of contracts.
pub fn zone_files_go_by_jiff()
    ensures utc_offset { (zone : Tzif) (second : ℤ) →
        seconds_ahead (tzif_view zone) second ≡ (offset_at zone (nanos_of_seconds second)).seconds }
    ensures rule { (rule : TimeZone) (rows : List TransitionText) →
        Decides (goes_on (tz_view rule) rows) (FooterAgrees rows rule) }
{}
