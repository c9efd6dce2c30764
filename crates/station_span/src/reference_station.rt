//! A station by its name, without a span.

ghost use Rattle.station_span.specs.Sites.{station_in};
ghost use Rattle.station_span.specs.Workings.Finds.{FindsReference};

use crate::station::{find_basis, level_units, station_at};
use crate::station_curves::whole_curve;
use crate::station_data::StationData;
use decimal_text::Text;
use harmonics_book::Station;
use station_curve::StationCurve;
use std::alloc::Global;
use tide_fault::Refusal;

/// A reference station whose unit is not knots squared, with its curve for all minutes of the harmonics
/// file.
#[derive(Drop)]
pub struct ReferenceStation<'a> {
    pub station: &'a Station,
    pub curve: StationCurve,
}

/// Returns the reference station of the station called `name`, one of `stations`, with its curve for all
/// minutes of the harmonics file.
///
/// # Errors
/// The first [`Refusal`] in this order: the station isn't found, its reference is a hydraulic current,
/// its constants exceed a limit. If memory runs out, [`Refusal::NoMemory`] is returned in place of any
/// other result.
#[tactic(auto, unfolding(crate::specs::Sites::station_in))]
pub fn find_reference<'a>(
    alloc: Global,
    stations: &StationData<'a>,
    name: &Text,
) -> Result<ReferenceStation<'a>, Refusal>
    ensures { FindsReference stations.now.book (station_in stations.now.book stations.now.table name.now) result }
{
    let basis = find_basis(stations, name)?;
    let book = stations.book();
    let station = station_at(book.get(), basis.station);
    level_units(station.units)?;
    let curve = whole_curve(alloc, book, basis.station, station)?;
    Ok(ReferenceStation { station, curve })
}
