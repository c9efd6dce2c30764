//! The length of the buffer in which a file is read.

/// The length in bytes of the buffer in which [`pass_file`](crate::pass_file) and
/// [`read_all`](crate::read_all) read a file: 65,536. They read at most this many bytes past their
/// limit.
pub const PIECE: usize = 65_536;
