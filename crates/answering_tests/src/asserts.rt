//! Assertions over borrowed values. Each names its case if it fails.

use std::process::Abort;

pub fn assert_bytes(rt: &impl Abort, seen: &[u8], expected: &[u8], case: &str) {
    assert_eq!(rt; seen, expected, "{case}");
}

pub fn assert_count(rt: &impl Abort, seen: usize, expected: usize, case: &str) {
    assert_eq!(rt; seen, expected, "{case}");
}

pub fn assert_holds(rt: &impl Abort, holds: bool, case: &str) {
    assert!(rt; holds, "{case}");
}
