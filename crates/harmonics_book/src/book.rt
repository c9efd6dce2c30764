//! The types of a book, the content of a harmonics file. Their values are in the ranges given here
//! if the book is valid, as [`crate::ValidBook`] requires.

use crate::lists::{Constituents, Stations};
use decimal_text::{Numbers, Text};

/// A tidal constituent, such as M2: one periodic part of the tide.
#[derive(Debug, Drop)]
pub struct Constituent {
    /// The constituent's name: 1 to 32 characters of ISO 8859-1, in UTF-8, none of them a control
    /// character of ASCII.
    pub name: Text,
    /// The constituent's speed in ten-millionths of a degree per hour, from 0 to 3,600,000,000.
    pub speed: i64,
}

/// The unit of a station's predicted values: heights of the tide, or speeds of a current.
#[derive(Clone, Copy, Debug, PartialEq, Eq)]
pub enum Units {
    Feet,
    Meters,
    Knots,
    /// Knots squared, for a hydraulic current: its speed in knots is the square root of the
    /// predicted value.
    KnotsSquared,
}

/// A reference station: a place with its harmonic constants, an amplitude and an epoch for each of
/// the book's constituents, from which its tide or current is predicted.
#[derive(Debug, Drop)]
pub struct Station {
    /// The station's name: 1 to 200 characters of ISO 8859-1, in UTF-8, none of them a control
    /// character of ASCII.
    pub name: Text,
    /// The station's local time less universal time, in minutes, from -959 to 959: positive east of
    /// Greenwich.
    pub meridian: i32,
    /// The name of the station's time zone, such as `America/New_York`, or no text. No computation
    /// uses it.
    pub zone: Text,
    /// The station's mean level in millionths of `units`, from -10,000,000,000 to 10,000,000,000.
    pub datum: i64,
    /// The unit of the datum and of the amplitudes.
    pub units: Units,
    /// The amplitude of each of the book's constituents, in their order, in millionths of `units`,
    /// from -10,000,000,000 to 10,000,000,000.
    pub amplitude: Numbers,
    /// The epoch of each of the book's constituents, in their order, in ten-millionths of a degree,
    /// from -7,200,000,000 to 7,200,000,000.
    pub epoch: Numbers,
}

/// The content of a harmonics file: tidal constituents, tables of their equilibrium arguments and
/// node factors by calendar year, and stations with the constants of these constituents.
#[derive(Debug, Drop)]
pub struct Book {
    /// The constituents, from 1 to 500, in the file's order.
    pub constituents: Constituents,
    /// The first calendar year that the tables `angles` and `factors` have, from 2 to 8800.
    pub first_year: i32,
    /// The number of calendar years that the tables `angles` and `factors` have, from 1 to 500.
    pub years: u32,
    /// The equilibrium argument of each constituent at the start of each year, in ten-millionths of
    /// a degree, from -7,200,000,000 to 7,200,000,000: all years of the first constituent, then of
    /// the second, and so on.
    pub angles: Numbers,
    /// The node factor of each constituent in each year, in millionths, from 0 to 10,000,000: all
    /// years of the first constituent, then of the second, and so on.
    pub factors: Numbers,
    /// The stations, from 0 to 20,000, in the file's order.
    pub stations: Stations,
}
