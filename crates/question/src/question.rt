//! Questions: a command with the values of its keys.

use crate::command::Command;
use crate::layout::Layout;
use decimal_text::{Text, Words};

/// The zone in which times are shown, as a question gives it.
#[derive(Drop)]
pub enum ZoneWord {
    /// Universal time.
    Utc,
    /// A fixed offset: the minutes by which clocks are ahead of universal time, negative if they
    /// are behind it, from -959 to 959.
    Fixed(i32),
    /// The zone in the zone file with this name.
    Named(Text),
}

/// A question: a command with the values of its keys. A key that isn't given has its default, or
/// `None`. The ranges below hold for each question that [`read_question`](crate::read_question)
/// returns.
#[derive(Drop)]
pub struct Question {
    pub command: Command,
    /// The name of the file of harmonic constants, or `None` if it isn't given.
    pub file: Option<Text>,
    /// The name of the file with the table of subordinate stations, or `None` if it isn't given.
    pub offsets: Option<Text>,
    /// The name of the file with the certificate, or `None` if it isn't given.
    pub certificate: Option<Text>,
    /// The name of the station, or `None` if it isn't given.
    pub station: Option<Text>,
    /// The first minute of the span, in minutes since 1970-01-01T00:00Z, in the years from 1 to
    /// 9999, or `None` if it isn't given.
    pub begin: Option<i64>,
    /// The end of the span, which isn't part of it, in minutes since 1970-01-01T00:00Z, in the
    /// years from 1 to 9999, or `None` if it isn't given.
    pub end: Option<i64>,
    /// The mark (a level, or the speed of a current) in millionths of the station's unit, from
    /// -10,000,000,000 to 10,000,000,000, or `None` if it isn't given.
    pub mark: Option<i64>,
    /// The minutes from one height to the next, from 1 to 44,640: 60 if it isn't given.
    pub step: i64,
    /// The zone in which times are shown: universal time if it isn't given.
    pub zone: ZoneWord,
    /// The layout of a listing: text in columns if it isn't given.
    pub layout: Layout,
    /// The seed from which a sample file is drawn, or `None` if it isn't given.
    pub seed: Option<u64>,
    /// The port of the web server, from 1 to 65,535: 8080 if it isn't given.
    pub port: u16,
    /// The names of a report's sheets in the given order, no two the same, or `None` if they aren't
    /// given.
    pub sheets: Option<Words>,
}
