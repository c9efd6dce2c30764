//! The paths of the server.

/// A path of the server, one for each command of the program, such as `/predict` for `predict`.
#[derive(Clone, Copy, PartialEq, Eq)]
pub enum Path {
    Predict,
    Certify,
    Heights,
    Calendar,
    Clock,
    Stations,
    Check,
}

static PATHS: [Path; 7] = [
    Path::Predict,
    Path::Certify,
    Path::Heights,
    Path::Calendar,
    Path::Clock,
    Path::Stations,
    Path::Check,
];

impl Path {
    ghost use Rattle.std.specs.Prelude.{◌≡◌, IfSome};
    ghost use Rattle.http_rows.specs.Paths.{is_posted, path_named, text_of};

    fn text(self) -> &'static str
        ensures { result.now ≡ text_of self }
    {
        match self {
            Path::Predict => "/predict",
            Path::Certify => "/certify",
            Path::Heights => "/heights",
            Path::Calendar => "/calendar",
            Path::Clock => "/clock",
            Path::Stations => "/stations",
            Path::Check => "/check",
        }
    }

    /// Returns the path with the text `text`, or `None` if the server has no such path.
    pub(crate) fn named(text: &[u8]) -> Option<Path>
        ensures named { result ≡ path_named text.now }
        ensures same { IfSome result (λ path. text_of path ≡ text.now) }
    {
        PATHS
            .iter()
            .copied()
            .find(|path| path.text().as_bytes() == text)
    }

    /// Returns true if the server serves the path by POST, false if by GET and HEAD.
    pub(crate) fn is_posted(self) -> bool
        ensures { result ≡ is_posted self }
    {
        matches!(self, Path::Check)
    }
}
