//! The two sources of a written answer.

use tide_answer::{Answer, Stream};

/// The form in which an answer is kept until it is written.
#[derive(Drop)]
pub enum Body {
    /// The whole answer, as a text in memory.
    Text(Answer),
    /// An answer that is computed while it is written.
    Stream(Stream),
}
