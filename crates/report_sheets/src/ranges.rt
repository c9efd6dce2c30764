//! The sheet of the highest and the lowest water.

ghost use Rattle.std.specs.Prelude.{◌≡◌, refl, [], ◌++◌, All, OnOk, Some, codes};
ghost use Rattle.event_text.specs.Lines.{IsListed};
ghost use Rattle.report_sheets.specs.Ranges.{extreme_of, range_line, range_sheet};
ghost use Rattle.report_sheets.specs.Workings.{better_of};
ghost use Rattle.zone_time.specs.Zones.{InZoneYears};

use crate::extreme::Extreme;
use crate::head::Head;
use crate::layout::Layout;
use crate::sheet_of::SheetOf;
use arrayvec::ArrayString;
use curve_law::Event;
use decimal_text::Bytes;
use event_text::{unit_text, write_level};
use harmonics_book::Units;
use std::alloc::{AllocError, Global};
use zone_time::write_moment;

/// The sheet (page of a report) called `range`: the station's name; a line such as
/// `Highest 1.00 feet 2000-01-10T11:59Z` for the highest high water; and a line such as
/// `Lowest -1.00 feet 2000-01-10T06:00Z` for the lowest low water. Of equal ones the first counts;
/// without high or low waters the line is absent.
pub type Ranges = SheetOf<RangesPage>;

/// Defines the text of the sheet (page of a report) called `range`; see [`Ranges`].
pub struct RangesPage;

impl Layout for RangesPage {
    ghost sheet = { range_sheet };

    ghost limited = { λ _. refl };

    fn word() -> &'static str {
        "range"
    }

    #[tactic(auto, unfolding(crate::specs::Ranges::ranges_of))]
    fn text(alloc: Global, head: &Head, events: &[Event]) -> Result<Bytes, AllocError> {
        let mut text = head.name_line(alloc)?;
        push_extreme(&mut text, Extreme::Highest, head.units, events)?;
        push_extreme(&mut text, Extreme::Lowest, head.units, events)?;
        Ok(Bytes::from_vec(text))
    }
}

/// Appends the line of the highest or the lowest water, as `extreme` says, if `events` has one.
fn push_extreme(
    text: &mut Vec<u8>,
    extreme: Extreme,
    units: Units,
    events: &[Event],
) -> Result<(), AllocError>
    requires { All (IsListed units) events.now }
    ensures { OnOk result (text.new.items ≡ text.old.items ++ range_line extreme units (extreme_of extreme events.now)) }
{
    match first_extreme(extreme, events) {
        Some(event) => push_range(text, extreme, units, &event),
        None => Ok(()),
    }
}

/// Returns the first of the highest high waters, or the first of the lowest low waters.
fn first_extreme(extreme: Extreme, events: &[Event]) -> Option<Event>
    ensures { result ≡ extreme_of extreme events.now }
{
    let mut best = None;
    for event in events {
        if extreme.is_of(event.kind) {
            best = Some(better(extreme, best, event));
        }
    }
    best
}

/// Returns the more extreme of `best` and `event`, and `best` if they are equal.
fn better(extreme: Extreme, best: Option<Event>, event: &Event) -> Event
    ensures { Some result ≡ better_of extreme best event.now }
{
    match best {
        Some(best) if !extreme.is_passed(best.level, event.level) => best,
        _ => *event,
    }
}

/// Appends the line of `event` as the highest or the lowest water, as `extreme` says.
fn push_range(
    text: &mut Vec<u8>,
    extreme: Extreme,
    units: Units,
    event: &Event,
) -> Result<(), AllocError>
    requires { InZoneYears event.now.minute }
    ensures { OnOk result (text.new.items ≡ text.old.items ++ range_line extreme units (Some event.now)) }
{
    let mut level = ArrayString::new();
    write_level(event.level, &mut level);
    let mut moment = ArrayString::new();
    write_moment(event.minute, &mut moment);
    let mut line = ArrayString::<64>::new();
    line.push_str(extreme.label());
    line.push_str(level.as_str());
    line.push(' ');
    line.push_str(unit_text(units));
    line.push(' ');
    line.push_str(moment.as_str());
    line.push('\n');
    text.extend_from_slice(line.as_str().as_bytes())
}
