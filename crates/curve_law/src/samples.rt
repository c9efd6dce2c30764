//! Two small curves for tests: a straight line, and a value that crosses zero in each minute.

mod line;
mod ripple;

pub use line::Line;
pub use ripple::Ripple;
