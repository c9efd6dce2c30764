//! The lines of a station, read in part, and the rules for its datum and its constants.

ghost use Rattle.std.specs.Prelude.{◌≡◌, ◌||◌, Ok, pos, if◌then◌else◌, IfSome};
ghost use Rattle.harmonics_text.specs.Rules.{is_absent, is_name, units_of, datum_of, pair_of};
ghost use Rattle.harmonics_text.specs.Workings.BookParsing.{station_of};

use crate::column::Column;
use crate::fault::Why;
use crate::heading::is_absent;
use crate::lines::{next_token, only_two_tokens, without_padding};
use crate::local_time::LocalTime;
use crate::names::is_name;
use crate::numbers::number;
use crate::plain::plain_number;
use crate::scale::Scale;
use decimal_text::Text;
use harmonics_book::{Station, Units};

/// A station with its name, local time and datum, of which the amplitudes and epochs are being
/// read.
#[derive(Drop)]
pub struct Constants {
    /// The station's name in UTF-8.
    pub name: Text,
    /// The station's meridian and the name of its zone.
    pub local_time: LocalTime,
    /// The station's mean level in millionths of `units`.
    pub datum: i64,
    /// The unit of the datum and of the amplitudes.
    pub units: Units,
    /// The amplitudes read so far, in millionths of `units`, in the order of the book's
    /// constituents.
    pub amplitude: Column,
    /// The epochs read so far, in ten-millionths of a degree, in the order of the book's
    /// constituents.
    pub epoch: Column,
}

/// The values of the lines read so far of a station that isn't complete.
#[derive(Drop)]
pub enum Record {
    /// No line of a station was read since the last complete station.
    Nothing,
    /// The station's name was read.
    Name(Text),
    /// The name and the local time were read.
    LocalTime(Text, LocalTime),
    /// The name, the local time, the datum, and some or none of the amplitudes and epochs were
    /// read.
    Constants(Constants),
}

/// Returns `constants` as a station of a book; the amplitudes and epochs of all constituents were
/// read.
pub fn into_station(constants: Constants) -> Station
    ensures { result ≡ station_of constants }
{
    let Constants {
        name,
        local_time,
        datum,
        units,
        amplitude,
        epoch,
    } = constants;
    let LocalTime { meridian, zone } = local_time;
    Station {
        name,
        meridian,
        zone,
        datum,
        units,
        amplitude: amplitude.into_numbers(),
        epoch: epoch.into_numbers(),
    }
}

/// Returns the unit that `token` names: `feet`, `meters`, `knots` or `knots^2`; any other token
/// gives the fault [`Why::BadUnits`].
#[tactic(auto, unfolding(crate::specs::Rules::units_of))]
fn parse_units(token: &[u8]) -> Result<Units, Why>
    ensures { result ≡ units_of token.now }
{
    if token == b"feet".as_slice() {
        Ok(Units::Feet)
    } else if token == b"meters".as_slice() {
        Ok(Units::Meters)
    } else if token == b"knots".as_slice() {
        Ok(Units::Knots)
    } else if token == b"knots^2".as_slice() {
        Ok(Units::KnotsSquared)
    } else {
        Err(Why::BadUnits)
    }
}

/// Returns the datum (the mean level) in the line `text`, in millionths of its unit, and the unit.
///
/// # Errors
/// The first that applies. [`Why::BadUnits`]: if the line doesn't have exactly two tokens.
/// [`Why::BadNumber`], [`Why::TooFine`] and [`Why::OutOfRange`]: for the number. [`Why::BadUnits`]:
/// if the second token isn't `feet`, `meters`, `knots` or `knots^2`.
#[tactic(auto, unfolding(crate::specs::Rules::datum_of))]
pub fn datum(text: &[u8]) -> Result<(i64, Units), Why>
    ensures { result ≡ datum_of text.now }
{
    let Some((first, second)) = only_two_tokens(text) else {
        return Err(Why::BadUnits);
    };
    let datum = number(first, Scale::Height)?;
    let units = parse_units(second)?;
    Ok((datum, units))
}

/// Returns the amplitude and the epoch, or twice 0 if `absent` is true.
fn pair(absent: bool, amplitude: i64, epoch: i64) -> (i64, i64)
    ensures { result ≡ (if absent then (pos 0, pos 0) else (amplitude, epoch)) }
{
    if absent { (0, 0) } else { (amplitude, epoch) }
}

/// Returns true if `token` is the constituent's name, or is `x`, for a constituent that the station
/// doesn't have.
fn is_for(token: &[u8], name: &Text) -> bool
    ensures { result ≡ (is_absent token.now || is_name token.now name.now) }
{
    is_absent(token) || is_name(token, name)
}

/// Returns what [`amplitude_and_epoch`] returns, if the line has the usual form: the name or `x`,
/// and two numbers that `plain_number` reads. Returns `None` for any other line, which may be
/// right.
fn plain_pair(name: &Text, text: &[u8]) -> Option<(i64, i64)>
    ensures { IfSome result (λ p. pair_of name.now text.now ≡ Ok p) }
{
    let (first, rest) = next_token(text)?;
    if !is_for(first, name) {
        return None;
    }
    let (amplitude, second) = plain_number(without_padding(rest), Scale::Height)?;
    let (epoch, third) = plain_number(second, Scale::Angle)?;
    match next_token(third) {
        Some(_) => None,
        None => Some(pair(is_absent(first), amplitude, epoch)),
    }
}

/// Returns the amplitude, in millionths of the station's unit, and the epoch, in ten-millionths of
/// a degree, in the line `text`, which should be for the constituent `name`. Both are 0 if the line
/// has `x` in place of the name, whatever its two numbers, which must be valid.
///
/// # Errors
/// [`Why::WrongConstituent`]: if the first token is neither `name` nor `x`. [`Why::BadNumber`]: if
/// there aren't exactly two tokens after it. Otherwise the fault of the first bad number of the
/// two.
pub fn amplitude_and_epoch(name: &Text, text: &[u8]) -> Result<(i64, i64), Why>
    ensures { result ≡ pair_of name.now text.now }
{
    match plain_pair(name, text) {
        Some(pair) => Ok(pair),
        None => any_pair(name, text),
    }
}

/// Returns what [`amplitude_and_epoch`] returns, for a line in any form.
#[inline(never)]
#[tactic(auto, unfolding(crate::specs::Rules::pair_of, crate::specs::Rules::pair_from))]
fn any_pair(name: &Text, text: &[u8]) -> Result<(i64, i64), Why>
    ensures { result ≡ pair_of name.now text.now }
{
    let Some((first, rest)) = next_token(text) else {
        return Err(Why::WrongConstituent);
    };
    let absent = is_absent(first);
    if !absent && !is_name(first, name) {
        return Err(Why::WrongConstituent);
    }
    let Some((second, third)) = only_two_tokens(rest) else {
        return Err(Why::BadNumber);
    };
    let amplitude = number(second, Scale::Height)?;
    let epoch = number(third, Scale::Angle)?;
    Ok(pair(absent, amplitude, epoch))
}
