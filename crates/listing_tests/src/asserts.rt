//! An assertion that names its case if it fails.

use std::fmt::Display;
use std::process::Abort;

pub fn assert_holds(rt: &impl Abort, holds: bool, case: impl Display + Drop) {
    assert!(rt; holds, "{case}");
}
