//! The error of a call on the outside.

use thiserror::Error;

/// The error of a call on files, a sink, a clock or a door. The object counts its failed calls in
/// its state; the reason of a failure isn't kept.
#[derive(Clone, Copy, Debug, PartialEq, Eq, Error)]
#[error("a call on files, a sink, a clock or a door failed")]
pub struct Failed;
