//! The layouts of a listing.

/// The layout of a listing of a station's events or levels.
#[derive(Clone, Copy, PartialEq, Eq)]
pub enum Layout {
    /// Text in columns, with a line for each event or level.
    Plain,
    /// Comma-separated values, with a record for each event or level.
    Csv,
}

impl Layout {
    ghost use Rattle.std.specs.Prelude.{◌≡◌, ◌≤◌, length};
    ghost use Rattle.question.specs.Layouts.{layout_of, media_type_of};

    /// Returns the layout called `text` (`plain` or `csv`), or `None` if there isn't one.
    #[tactic(auto, unfolding(crate::specs::Layouts::layout_of))]
    pub(crate) fn named(text: &str) -> Option<Layout>
        ensures { result ≡ layout_of text.now }
    {
        if text == "plain" {
            return Some(Layout::Plain);
        }
        if text == "csv" {
            return Some(Layout::Csv);
        }
        None
    }

    /// Returns the media type of texts in this layout (RFC 6838), such as `text/csv`: at most 40
    /// bytes.
    pub fn media_type(self) -> &'static str
        ensures text { result.now ≡ media_type_of self }
        ensures length_bound { length result.now ≤ 40 }
    {
        match self {
            Layout::Plain => "text/plain",
            Layout::Csv => "text/csv",
        }
    }
}
