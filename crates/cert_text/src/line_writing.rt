//! Writing the lines of a certificate. Nothing is allocated.

ghost use Rattle.std.specs.Prelude.{◌≡◌, ◌≤◌, ◌+◌, ◌++◌, ◌⊎◌, [], length, IfSome, unsigned_abs};
ghost use Rattle.std.specs.Fmt.{signed_decimal};
ghost use Rattle.arrayvec.specs.ArrayString.{array_string_len};
ghost use Rattle.zone_time.specs.Moments.{IsMoment, moment_text};
ghost use Rattle.cert_text.specs.Certificates.{IsCell, IsMark};
ghost use Rattle.cert_text.specs.Lines.{title_of, begin_line_of, end_line_of, mark_line_of, heading_of, cell_line_of, last_line, ended};

use crate::track_name::TrackName;
use crate::words::prefix_of;
use arrayvec::ArrayString;
use curve_law::Cell;
use itoa::Buffer;
use zone_time::write_moment;

/// Appends `number`, which is below 10^14 in size, to `out` in decimal.
fn push_number<const N: usize>(number: i64, out: &mut ArrayString<N>)
    requires size { unsigned_abs number ≤ 99999999999999 }
    requires room { array_string_len out.old + 15 ≤ N }
    ensures bytes { out.new.bytes ≡ out.old.bytes ++ signed_decimal number }
    ensures length_bound { array_string_len out.new ≤ array_string_len out.old + 15 }
{
    let mut buffer = Buffer::new();
    out.push_str(buffer.format(number));
}

/// Appends the minute `m`, counted from 1970-01-01T00:00Z, in the years 1 to 9999, to `out`, such
/// as `2000-01-10T06:00Z`.
fn push_moment(m: i64, out: &mut ArrayString<24>)
    requires moment { IsMoment m }
    requires room { array_string_len out.old + 17 ≤ 24 }
    ensures bytes { out.new.bytes ≡ out.old.bytes ++ moment_text m }
    ensures len { array_string_len out.new ≡ array_string_len out.old + 17 }
{
    let mut text = ArrayString::new();
    write_moment(m, &mut text);
    out.push_str(text.as_str());
}

/// Returns the first line of a certificate of `version`, without its LF.
#[tactic(auto, unfolding(crate::specs::Lines::title_of))]
fn title_of(version: u32) -> &'static str
    ensures text { result.now ≡ title_of version }
    ensures length_bound { length result.now ≤ 18 }
{
    if version == 1 {
        "tide certificate 1"
    } else {
        "tide certificate 2"
    }
}

/// Writes the first line of a certificate of `version`, 1 or 2, such as `tide certificate 2`, with
/// its LF, to `out`, which must be empty.
pub fn title_line(version: u32, out: &mut ArrayString<24>)
    requires version { (version ≡ 1) ⊎ (version ≡ 2) }
    requires empty { out.old.bytes ≡ [] }
    ensures { out.new.bytes ≡ ended (title_of version) }
{
    out.push_str(title_of(version));
    out.push('\n');
}

/// Writes the line with the first minute `m` of a span, such as `begin 2000-01-10T00:00Z`, with its
/// LF, to `out`, which must be empty. `m` counts from 1970-01-01T00:00Z and is in the years 1 to
/// 9999.
#[tactic(auto, unfolding(crate::specs::Lines::begin_line_of))]
pub fn begin_line(m: i64, out: &mut ArrayString<24>)
    requires moment { IsMoment m }
    requires empty { out.old.bytes ≡ [] }
    ensures { out.new.bytes ≡ ended (begin_line_of m) }
{
    out.push_str("begin ");
    push_moment(m, out);
    out.push('\n');
}

/// Writes the line with the end `m` of a span, the minute after its last, such as
/// `end 2000-01-11T00:00Z`, with its LF, to `out`, which must be empty. `m` counts from
/// 1970-01-01T00:00Z and is in the years 1 to 9999.
#[tactic(auto, unfolding(crate::specs::Lines::end_line_of))]
pub fn end_line(m: i64, out: &mut ArrayString<24>)
    requires moment { IsMoment m }
    requires empty { out.old.bytes ≡ [] }
    ensures { out.new.bytes ≡ ended (end_line_of m) }
{
    out.push_str("end ");
    push_moment(m, out);
    out.push('\n');
}

/// Writes the line with the mark, in millionths of the station's unit, without its LF, to `out`,
/// which must be empty.
#[tactic(auto, unfolding(crate::specs::Lines::mark_line_of))]
fn push_mark(mark: Option<i64>, out: &mut ArrayString<24>)
    requires mark { IfSome mark IsMark }
    requires empty { out.old.bytes ≡ [] }
    ensures bytes { out.new.bytes ≡ mark_line_of mark }
    ensures length_bound { array_string_len out.new ≤ 20 }
{
    match mark {
        None => out.push_str("mark none"),
        Some(mark) => {
            out.push_str("mark ");
            push_number(mark, out);
        }
    }
}

/// Writes the line with the mark (a level at which crossings are listed), such as `mark none` or
/// `mark 1500000`, with its LF, to `out`, which must be empty. `mark` is in millionths of the
/// station's unit, from -10,000,000,000 to 10,000,000,000.
pub fn mark_line(mark: Option<i64>, out: &mut ArrayString<24>)
    requires mark { IfSome mark IsMark }
    requires empty { out.old.bytes ≡ [] }
    ensures { out.new.bytes ≡ ended (mark_line_of mark) }
{
    push_mark(mark, out);
    out.push('\n');
}

/// Writes the line before the cells of `track`, such as `track turn`, with its LF, to `out`, which
/// must be empty.
#[tactic(auto, unfolding(crate::specs::Lines::heading_of))]
pub fn heading_line(track: TrackName, out: &mut ArrayString<24>)
    requires { out.old.bytes ≡ [] }
    ensures { out.new.bytes ≡ ended (heading_of track) }
{
    out.push_str("track ");
    out.push_str(track.word());
    out.push('\n');
}

/// Appends the line of `cell`, without its LF, to `out`.
#[tactic(auto, unfolding(crate::specs::Lines::cell_line_of))]
fn push_cell<const N: usize>(cell: Cell, out: &mut ArrayString<N>)
    requires cell { IsCell cell }
    requires room { array_string_len out.old + 24 ≤ N }
    ensures bytes { out.new.bytes ≡ out.old.bytes ++ cell_line_of cell }
    ensures length_bound { array_string_len out.new ≤ array_string_len out.old + 23 }
{
    match cell {
        Cell::Quiet(minutes) => {
            out.push_str("q ");
            push_number(i64::from(minutes), out);
        }
        Cell::Still => out.push_str("s"),
        Cell::Turn(kind, level) => {
            out.push_str(prefix_of(kind));
            push_number(level, out);
        }
    }
}

/// Appends the line of `cell` with its LF, at most 24 bytes, to `out`: `q 1024` for minutes without
/// an event, from 2 to 1,024, `s` for one such minute, or `t low -1000000` for an event and its
/// level, at most 14 digits, in millionths of the station's unit.
pub fn push_cell_line<const N: usize>(cell: &Cell, out: &mut ArrayString<N>)
    requires cell { IsCell cell.now }
    requires room { array_string_len out.old + 24 ≤ N }
    ensures bytes { out.new.bytes ≡ out.old.bytes ++ ended (cell_line_of cell.now) }
    ensures length_bound { array_string_len out.new ≤ array_string_len out.old + 24 }
{
    push_cell(*cell, out);
    out.push_str("\n");
}

/// Writes the line of `cell` with its LF to `out`, which must be empty: `q 1024` for minutes
/// without an event, from 2 to 1,024, `s` for one such minute, or `t low -1000000` for an event and
/// its level, at most 14 digits, in millionths of the station's unit.
pub fn cell_line(cell: &Cell, out: &mut ArrayString<24>)
    requires cell { IsCell cell.now }
    requires empty { out.old.bytes ≡ [] }
    ensures { out.new.bytes ≡ ended (cell_line_of cell.now) }
{
    push_cell_line(cell, out);
}

/// Writes the last line of a certificate, `done`, with its LF, to `out`, which must be empty.
#[tactic(auto, unfolding(crate::specs::Lines::last_line))]
pub fn last_line(out: &mut ArrayString<24>)
    requires { out.old.bytes ≡ [] }
    ensures { out.new.bytes ≡ ended last_line }
{
    out.push_str("done\n");
}
