//! The commands of questions.

ghost use Rattle.std.specs.Prelude.{◌≡◌};
ghost use Rattle.question.specs.Commands.{command_named};

use crate::origin::Origin;

/// The command of a question, which says what is asked for. Each command is named by a word, such
/// as `predict`.
#[derive(Clone, Copy, PartialEq, Eq)]
pub enum Command {
    /// `predict`: the events (such as high and low waters) of a station over a span.
    Predict,
    /// `certify`: a certificate, which another program can check, of a station's events over a
    /// span.
    Certify,
    /// `check`: whether a certificate of events is right.
    Check,
    /// `heights`: the levels of a station over a span, at a fixed step of time.
    Heights,
    /// `calendar`: the events of a station over a span, with a line for each day.
    Calendar,
    /// `clock`: the level of a station at the present minute, and its next events.
    Clock,
    /// `stations`: the list of the stations in a file of harmonic constants.
    Stations,
    /// `sample`: a sample file of harmonic constants, drawn from a seed.
    Sample,
    /// `trial`: counts of a trial run: predicting, certifying and checking a sample file drawn from
    /// a seed.
    Trial,
    /// `serve`: the web server.
    Serve,
    /// `report`: several sheets (texts) made from one list of a station's events.
    Report,
    /// `highest`: the highest water of a station over a span.
    Highest,
    /// `peak`: a certificate, which another program can check, of the highest water of a station
    /// over a span.
    Peak,
    /// `peakcheck`: whether a certificate of a highest water is right.
    PeakCheck,
    /// `about`: facts about a station, such as its unit and its reference station.
    About,
}

static COMMANDS: [Command; 15] = [
    Command::Predict,
    Command::Certify,
    Command::Check,
    Command::Heights,
    Command::Calendar,
    Command::Clock,
    Command::Stations,
    Command::Sample,
    Command::Trial,
    Command::Serve,
    Command::Report,
    Command::Highest,
    Command::Peak,
    Command::PeakCheck,
    Command::About,
];

impl Command {
    ghost use Rattle.std.specs.Str.{bytes_eq};
    ghost use Rattle.question.specs.Commands.{word_of, is_asked_in};

    /// Returns the name of the command, such as `predict`. It doesn't allocate.
    pub fn text(self) -> &'static str
        ensures { result.now ≡ word_of self }
    {
        match self {
            Command::Predict => "predict",
            Command::Certify => "certify",
            Command::Check => "check",
            Command::Heights => "heights",
            Command::Calendar => "calendar",
            Command::Clock => "clock",
            Command::Stations => "stations",
            Command::Sample => "sample",
            Command::Trial => "trial",
            Command::Serve => "serve",
            Command::Report => "report",
            Command::Highest => "highest",
            Command::Peak => "peak",
            Command::PeakCheck => "peakcheck",
            Command::About => "about",
        }
    }

    /// Returns true if `other` is the same command.
    pub fn is(self, other: Command) -> bool
        ensures { result ≡ bytes_eq (word_of self) (word_of other) }
    {
        self == other
    }

    /// Returns true if a question from `origin` can have this command. A command line can have each
    /// command, a web query only one for which the web server has a path.
    fn is_asked_in(self, origin: Origin) -> bool
        ensures { result ≡ is_asked_in origin self }
    {
        match origin {
            Origin::Line => true,
            Origin::Query => matches!(
                self,
                Command::Predict
                    | Command::Certify
                    | Command::Check
                    | Command::Heights
                    | Command::Calendar
                    | Command::Clock
                    | Command::Stations
            ),
        }
    }
}

/// Returns the command called `word`, or `None` if no command has this name or a question from
/// `origin` can't have it (a web query can have only commands for which the server has a path).
pub fn command_named(origin: Origin, word: &str) -> Option<Command>
    ensures { result ≡ command_named origin word.now }
{
    COMMANDS.iter().copied().find(|command| command.text() == word && command.is_asked_in(origin))
}
