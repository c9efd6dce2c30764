//! The kinds of events.

/// The kind of an event: a high or low water, a slack water, or a crossing of a mark. Events at the
/// same minute are listed in the order of these variants.
#[derive(Clone, Copy, Debug, PartialEq, Eq)]
pub enum Kind {
    /// A high water, or the greatest stream of a current: the level stops rising.
    High,
    /// A low water, or the least stream of a current: the level stops falling.
    Low,
    /// A slack water at which a current turns to flood.
    FloodBegins,
    /// A slack water at which a current turns to ebb.
    EbbBegins,
    /// The level rises from the mark (a level that the request names) or below it to above it.
    MarkRising,
    /// The level falls from above the mark (a level that the request names) to the mark or below.
    MarkFalling,
}
