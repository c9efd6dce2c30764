//! The origin of a question.

/// The origin of a question: what its command and its keys are read from.
#[derive(Clone, Copy, PartialEq, Eq)]
pub enum Origin {
    /// A command line: its arguments.
    Line,
    /// A web query: the path and the pairs of a request's target.
    Query,
}
