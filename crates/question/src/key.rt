//! The table of a question's keys.

ghost use Rattle.std.specs.Prelude.{◌≡◌};
ghost use Rattle.question.specs.Keys.{row_of, has_key, is_needed, key_named};

use crate::command::Command;
use crate::origin::Origin;

/// The keys of a question, in the order in which a missing one is reported. Each is written as a
/// word, such as `file`, before `=`.
#[derive(Clone, Copy, Debug, PartialEq, Eq)]
pub enum Key {
    /// `file`: the name of the file of harmonic constants.
    File,
    /// `offsets`: the name of the file with the table of subordinate stations.
    Offsets,
    /// `certificate`: the name of the file with the certificate to be checked.
    Certificate,
    /// `station`: the name of the station.
    Station,
    /// `begin`: the first minute of the span, such as `2000-01-10T00:00Z`.
    Begin,
    /// `end`: the minute at which the span ends, such as `2000-01-11T00:00Z`.
    End,
    /// `mark`: a level (or the speed of a current) in the station's unit, as a decimal.
    Mark,
    /// `step`: the minutes from one height to the next.
    Step,
    /// `zone`: the zone in which times are shown.
    Zone,
    /// `layout`: the layout of a listing, `plain` or `csv`.
    Layout,
    /// `seed`: the number from which a sample file is drawn.
    Seed,
    /// `port`: the port of the web server.
    Port,
    /// `sheets`: the names of a report's sheets, with commas between them.
    Sheets,
}

/// All keys, in the order in which a missing one is reported.
pub static KEYS: [Key; 13] = [
    Key::File,
    Key::Offsets,
    Key::Certificate,
    Key::Station,
    Key::Begin,
    Key::End,
    Key::Mark,
    Key::Step,
    Key::Zone,
    Key::Layout,
    Key::Seed,
    Key::Port,
    Key::Sheets,
];

impl Key {
    ghost use Rattle.question.specs.Keys.{name_of};

    /// Returns the name of the key, such as `file`. It doesn't allocate.
    pub fn text(self) -> &'static str
        ensures { result.now ≡ name_of self }
    {
        match self {
            Key::File => "file",
            Key::Offsets => "offsets",
            Key::Certificate => "certificate",
            Key::Station => "station",
            Key::Begin => "begin",
            Key::End => "end",
            Key::Mark => "mark",
            Key::Step => "step",
            Key::Zone => "zone",
            Key::Layout => "layout",
            Key::Seed => "seed",
            Key::Port => "port",
            Key::Sheets => "sheets",
        }
    }
}

static OF_FILE: [Command; 13] = [
    Command::Predict,
    Command::Certify,
    Command::Check,
    Command::Heights,
    Command::Calendar,
    Command::Clock,
    Command::Stations,
    Command::Serve,
    Command::Report,
    Command::Highest,
    Command::Peak,
    Command::PeakCheck,
    Command::About,
];

static OF_STATION: [Command; 9] = [
    Command::Predict,
    Command::Certify,
    Command::Heights,
    Command::Calendar,
    Command::Clock,
    Command::Report,
    Command::Highest,
    Command::Peak,
    Command::About,
];

static OF_SPAN: [Command; 7] = [
    Command::Predict,
    Command::Certify,
    Command::Heights,
    Command::Calendar,
    Command::Report,
    Command::Highest,
    Command::Peak,
];

static OF_MARK: [Command; 4] = [
    Command::Predict,
    Command::Certify,
    Command::Calendar,
    Command::Report,
];

static OF_ZONE: [Command; 6] = [
    Command::Predict,
    Command::Check,
    Command::Heights,
    Command::Calendar,
    Command::Clock,
    Command::Highest,
];

static OF_CHECK: [Command; 2] = [Command::Check, Command::PeakCheck];

static OF_STEP: [Command; 1] = [Command::Heights];

static OF_LAYOUT: [Command; 2] = [Command::Predict, Command::Heights];

static OF_SEED: [Command; 2] = [Command::Sample, Command::Trial];

static OF_PORT: [Command; 1] = [Command::Serve];

static OF_SHEETS: [Command; 1] = [Command::Report];

static IN_LINE: [Origin; 1] = [Origin::Line];

static ANYWHERE: [Origin; 2] = [Origin::Line, Origin::Query];

/// The row of a key in the table of keys.
#[derive(Clone, Copy)]
struct KeyRow {
    /// The commands that have the key.
    commands: &'static [Command],
    /// The origins of questions that have the key: a web query has no keys for files.
    origins: &'static [Origin],
    is_needed: bool,
}

impl KeyRow {
    ghost use Rattle.question.specs.Commands.{is_among};
    ghost use Rattle.question.specs.Origins.{is_one_of};

    fn has_origin(self, origin: Origin) -> bool
        ensures { result ≡ is_one_of self.origins.now origin }
    {
        self.origins.contains(&origin)
    }

    fn has_command(self, command: Command) -> bool
        ensures { result ≡ is_among self.commands.now command }
    {
        self.commands.iter().any(|c| c.is(command))
    }
}

/// Makes a row of the table of keys: the commands and the origins that have the key, and whether it
/// is required.
macro_rules! row {
    ($commands:ident, $origins:ident, $is_needed:expr) => {
        KeyRow {
            commands: &$commands,
            origins: &$origins,
            is_needed: $is_needed,
        }
    };
}

fn row_of(key: Key) -> KeyRow
    ensures commands { result.commands.now ≡ (row_of key).commands }
    ensures origins { result.origins.now ≡ (row_of key).origins }
    ensures needed { result.is_needed ≡ (row_of key).need.is_needed }
{
    match key {
        Key::File => row!(OF_FILE, IN_LINE, true),
        Key::Offsets => row!(OF_FILE, IN_LINE, false),
        Key::Certificate => row!(OF_CHECK, IN_LINE, true),
        Key::Station => row!(OF_STATION, ANYWHERE, true),
        Key::Begin => row!(OF_SPAN, ANYWHERE, true),
        Key::End => row!(OF_SPAN, ANYWHERE, true),
        Key::Mark => row!(OF_MARK, ANYWHERE, false),
        Key::Step => row!(OF_STEP, ANYWHERE, false),
        Key::Zone => row!(OF_ZONE, ANYWHERE, false),
        Key::Layout => row!(OF_LAYOUT, ANYWHERE, false),
        Key::Seed => row!(OF_SEED, ANYWHERE, true),
        Key::Port => row!(OF_PORT, ANYWHERE, false),
        Key::Sheets => row!(OF_SHEETS, ANYWHERE, true),
    }
}

/// Returns true if `command` has the key in questions from `origin`.
fn has_key(origin: Origin, command: Command, key: Key) -> bool
    ensures { result ≡ has_key origin command key }
{
    let row = row_of(key);
    row.has_origin(origin) && row.has_command(command)
}

/// Returns true if `command` requires the key in questions from `origin`. A key that a command
/// doesn't have in such questions isn't required.
pub fn is_needed(origin: Origin, command: Command, key: Key) -> bool
    ensures { result ≡ is_needed origin command key }
{
    row_of(key).is_needed && has_key(origin, command, key)
}

/// Returns the key called `name` that `command` has in questions from `origin`, or `None` if there
/// isn't one.
pub fn key_named(origin: Origin, command: Command, name: &str) -> Option<Key>
    ensures { result ≡ key_named origin command name.now }
{
    KEYS.iter()
        .copied()
        .find(|key| key.text() == name && has_key(origin, command, *key))
}
