//! A file in memory.

use decimal_text::{Bytes, Text};

/// A file in memory: its name and its bytes.
#[derive(Drop)]
pub struct NamedFile {
    pub name: Text,
    pub bytes: Bytes,
}
