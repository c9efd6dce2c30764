//! Moments, local times and clocks that were computed by hand.

ghost use Rattle.std.specs.Prelude.{◌≡◌, pos, negsuc, true, false, [], take, Some, None, Ok, Err, codes};
ghost use Rattle.jiff_tz.specs.declared.info.Dst.TheVariants.{No};
ghost use Rattle.zone_time.specs.declared.local.Label.{Label};
ghost use Rattle.zone_time.specs.declared.zone.Zone.{Zone};
ghost use Rattle.zone_time.specs.declared.zone_fault.ZoneFault.{ZoneFault};
ghost use Rattle.zone_time.specs.Moments.{moment_text, moment_of};
ghost use Rattle.zone_time.specs.Locals.{label_text, local_text};
ghost use Rattle.zone_time.specs.Worked.{new_york_to, hour_ahead};
ghost use Rattle.zone_time.specs.ZoneFiles.{clock_minute, is_consistent};
ghost use Rattle.zone_time.specs.Zones.{local_in, zone_of};

/// Proves the texts of some moments, in minutes since 1970-01-01T00:00Z: an ordinary one, 0 and -1,
/// the first and the last moment with a text, leap days in the years 2000 and 4, and the minutes at
/// the end of February 1900, which has no leap day. `negsuc n` is -(n + 1).
pub fn worked_texts()
    ensures usual { moment_text (pos 15791040) ≡ codes "2000-01-10T00:00Z" }
    ensures zero { moment_text (pos 0) ≡ codes "1970-01-01T00:00Z" }
    ensures before_zero { moment_text (negsuc 0) ≡ codes "1969-12-31T23:59Z" }
    ensures leap_day { moment_text (pos 15864479) ≡ codes "2000-02-29T23:59Z" }
    ensures first { moment_text (negsuc 1035593279) ≡ codes "0001-01-01T00:00Z" }
    ensures last { moment_text (pos 4223371679) ≡ codes "9999-12-31T23:59Z" }
    ensures last_of_february { moment_text (negsuc 36731520) ≡ codes "1900-02-28T23:59Z" }
    ensures no_leap_century { moment_text (negsuc 36731519) ≡ codes "1900-03-01T00:00Z" }
    ensures first_leap_day { moment_text (negsuc 1033930765) ≡ codes "0004-02-29T12:34Z" }
{}

/// Proves which moments some texts write, in minutes since 1970-01-01T00:00Z, among them a leap day
/// and the first and last moment. Also proves that a text writes none if the day doesn't exist (29
/// February in 2100 and in 2001), without a time of day, with a lower-case `z`, with month 0, hour
/// 24 or minute 60, or in the year 0. `negsuc n` is -(n + 1).
#[tactic(auto, unfolding(crate::specs::Moments::moment_of, crate::specs::Moments::has_form))]
pub fn worked_readings()
    ensures usual { moment_of (codes "2000-01-10T00:00Z") ≡ Some (pos 15791040) }
    ensures leap_day { moment_of (codes "2000-02-29T23:59Z") ≡ Some (pos 15864479) }
    ensures no_leap_century { moment_of (codes "2100-02-29T00:00Z") ≡ None }
    ensures first { moment_of (codes "0001-01-01T00:00Z") ≡ Some (negsuc 1035593279) }
    ensures last { moment_of (codes "9999-12-31T23:59Z") ≡ Some (pos 4223371679) }
    ensures date_alone { moment_of (codes "2000-01-10") ≡ None }
    ensures small_letter { moment_of (codes "2000-01-10T00:00z") ≡ None }
    ensures no_month { moment_of (codes "2000-00-10T00:00Z") ≡ None }
    ensures no_day { moment_of (codes "2001-02-29T00:00Z") ≡ None }
    ensures no_hour { moment_of (codes "2000-01-10T24:00Z") ≡ None }
    ensures no_minute { moment_of (codes "2000-01-10T00:60Z") ≡ None }
    ensures year_zero { moment_of (codes "0000-12-31T23:59Z") ≡ None }
{}

/// Proves the texts of local times and labels; a label is `UTC` or an offset from universal time in
/// minutes. The offsets are five hours and half an hour behind, 26 hours behind, 5:45 ahead, and 0
/// (`level`). The clause `first` has the earliest local time with a text, in the year 0.
/// `negsuc n` is -(n + 1).
#[tactic(auto, unfolding(crate::specs::Locals::local_text, crate::specs::Locals::time_text, crate::specs::Locals::label_text, crate::specs::Dates::date_text, crate::specs::Dates::clock_text, crate::specs::Dates::two_digits, crate::specs::Dates::date_of, crate::specs::Dates::date_from_year, crate::specs::Dates::date_from_month))]
pub fn worked_locals()
    ensures universal { local_text (record { minute = pos 15791400; label = Label.Utc }) ≡ codes "2000-01-10 06:00 UTC" }
    ensures behind { local_text (record { minute = pos 15791100; label = Label.Minutes (negsuc 299) }) ≡ codes "2000-01-10 01:00 -05:00" }
    ensures utc_offset { label_text (Label.Minutes (pos 345)) ≡ codes "+05:45" }
    ensures level { label_text (Label.Minutes (pos 0)) ≡ codes "+00:00" }
    ensures half_hour_behind { label_text (Label.Minutes (negsuc 29)) ≡ codes "-00:30" }
    ensures far_behind { label_text (Label.Minutes (negsuc 1559)) ≡ codes "-26:00" }
    ensures first { local_text (record { minute = negsuc 1036120319; label = Label.Utc }) ≡ codes "0000-01-01 00:00 UTC" }
{}

/// Proves the minutes that the clock of an example file for New York shows at some minutes, both
/// counted from 1970-01-01 00:00 (`negsuc n` is -(n + 1)): in 1850 in mean time, whose seconds are
/// rounded down, and in the last minute before and at each of four changes: 1883-11-18T17:00Z and
/// 1999-11-07T06:00Z (`pos 941954400`) by the file's table, 2000-03-12T07:00Z and 2000-11-05T06:00Z
/// by its rule. `label` is the text of a local time at a fixed offset of five hours behind.
pub fn worked_clocks()
    ensures mean_time { clock_minute (new_york_to (pos 941954400)) (negsuc 63113759) ≡ negsuc 63114056 }
    ensures last_of_mean_time { clock_minute (new_york_to (pos 941954400)) (negsuc 45294180) ≡ negsuc 45294477 }
    ensures first_row { clock_minute (new_york_to (pos 941954400)) (negsuc 45294179) ≡ negsuc 45294479 }
    ensures last_of_daylight { clock_minute (new_york_to (pos 941954400)) (pos 15699239) ≡ pos 15698999 }
    ensures last_row { clock_minute (new_york_to (pos 941954400)) (pos 15699240) ≡ pos 15698940 }
    ensures before_march { clock_minute (new_york_to (pos 941954400)) (pos 15880739) ≡ pos 15880439 }
    ensures from_march { clock_minute (new_york_to (pos 941954400)) (pos 15880740) ≡ pos 15880500 }
    ensures before_november { clock_minute (new_york_to (pos 941954400)) (pos 16223399) ≡ pos 16223159 }
    ensures from_november { clock_minute (new_york_to (pos 941954400)) (pos 16223400) ≡ pos 16223100 }
    ensures label { local_text (local_in (Zone.Fixed (negsuc 299)) (pos 15791400)) ≡ codes "2000-01-10 01:00 -05:00" }
{}

/// Proves the zone of a file for a clock one hour ahead of universal time, and that this file cut
/// short, or no bytes at all, have none. Also proves that the rule of the example file for New York
/// gives the clock type of its table's last row, the end of daylight saving time at the second
/// 941954400 (1999-11-07T06:00Z), but not if this row is a week too early (941349600).
pub fn worked_zone_files()
    ensures consistent { is_consistent (new_york_to (pos 941954400)) ≡ true }
    ensures inconsistent { is_consistent (new_york_to (pos 941349600)) ≡ false }
    ensures hour_ahead { zone_of hour_ahead ≡ Ok (Zone.File
        (record { version = 0; first = record { seconds = pos 3600; dst = No; name = codes "CET" }; transitions = []; rule = None })) }
    ensures cut_short { zone_of (take 53 hour_ahead) ≡ Err ZoneFault.BadZone }
    ensures empty { zone_of [] ≡ Err ZoneFault.BadZone }
{}
