//! The pages of help and of the version.

ghost use Rattle.std.specs.Prelude.{◌≡◌};
ghost use Rattle.std.specs.List.{list_any};
ghost use Rattle.tide.specs.Pages.{asks_for_help, asks_for_version, first_asks_for_version, page_of, page_text};

use decimal_text::{Text, Words};

/// The page of help.
const HELP: &str = "\
Predicts tides and tidal currents at a station, from harmonic constants.

Usage: tide COMMAND file=F [KEY=VALUE..]
       tide --help | --version

  predict   high and low waters, slacks, and when the level passes a mark
  certify   a certificate that this list of events is complete
  check     checks such a certificate, whoever wrote it
  heights   levels at equal steps
  calendar  the events day by day
  clock     the level now, and the events of the next 24 hours
  stations  the stations of a file
  report    sheets of one list: a tally, the range, the first lines, a calendar
  highest   the highest water of a span
  peak      a certificate of the highest water
  peakcheck checks such a certificate, whoever wrote it
  about     a station's reference, unit, and how exact its turns are
  sample    a made-up file of constants, from a seed; it needs no file
  trial     predicts, certifies and checks with such a file, and prints counts
  serve     a web server at 127.0.0.1, which answers until it is stopped

  file         harmonic constants, in the form of XTide's text files
  offsets      a table of subordinate stations (CSV)
  station      the name of a station, as `stations` lists it
  begin, end   the first minute, in UTC, as 2025-06-01T00:00Z, and the minute
               before which the list ends
  mark         also list when the level passes this one, in the station's unit
  zone         UTC, an offset as -05:00, or @F for a time zone's file
  layout       plain or csv
  sheets       the sheets of a report, as tally,range,first,ical
  step         minutes between heights; 60 if left out
  certificate  the file to check
  seed         a whole number
  port         the server's port; 8080 if left out

The pairs can have any order. An event has the time of the last whole minute
before it, and the level of that minute. At a subordinate station mark, heights,
clock, highest, peak need one offset for highs and lows (37 of XTide's 3,387).

Example, with the package's constants (the sources have them in examples/):
  tide predict file=/usr/share/tide/harbours.txt \\
    station='Boston, Boston Harbor, Massachusetts' \\
    begin=2025-06-01T04:00Z end=2025-06-08T04:00Z zone=-04:00

Status: 0 done, 1 certificate rejected, 2 bad arguments, 3 bad file,
4 no answer, 5 beyond a limit, 6 can't read, 7 can't write, 8 no memory.
For 2 to 8 a line on standard error says why; the manual explains each line.

NOT FOR NAVIGATION.
";

/// The page of the version.
const VERSION: &str = "tide 1.0.0\n";

/// A page of text about the program itself: its help or its version.
#[derive(Clone, Copy, PartialEq, Eq)]
pub enum InfoPage {
    Help,
    Version,
}

impl InfoPage {
    /// Returns the text of the help or of the version.
    pub fn text(self) -> &'static str
        ensures { result.now ≡ page_text self }
    {
        match self {
            InfoPage::Help => HELP,
            InfoPage::Version => VERSION,
        }
    }
}

/// Returns the page that the arguments `words` request: the help if any of them is `-h` or `--help`,
/// else the version if the first is `-V` or `--version`, else `None`.
pub fn page_asked(words: &Words) -> Option<InfoPage>
    ensures { result ≡ page_of words.now }
{
    if any_asks_for_help(words.as_slice()) {
        Some(InfoPage::Help)
    } else if first_asks_for_version(words) {
        Some(InfoPage::Version)
    } else {
        None
    }
}

/// Returns true if one of `words` is `-h` or `--help`.
fn any_asks_for_help(words: &[Text]) -> bool
    ensures { result ≡ list_any asks_for_help words.now }
{
    words.iter().any(|word| asks_for_help(word))
}

/// Returns true if the first of `words` is `-V` or `--version`.
fn first_asks_for_version(words: &Words) -> bool
    ensures { result ≡ first_asks_for_version words.now }
{
    match words.as_slice().first() {
        Some(word) => asks_for_version(word),
        None => false,
    }
}

/// Returns true if `word` is `-h` or `--help`.
fn asks_for_help(word: &Text) -> bool
    ensures { result ≡ asks_for_help word.now }
{
    matches!(word.as_str(), "-h" | "--help")
}

/// Returns true if `word` is `-V` or `--version`.
fn asks_for_version(word: &Text) -> bool
    ensures { result ≡ asks_for_version word.now }
{
    matches!(word.as_str(), "-V" | "--version")
}
