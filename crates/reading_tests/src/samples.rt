//! Made-up files.

use sample_tides::*;
use std::alloc::{AllocError, Global};

/// Returns the length of the file of `seed`.
fn length_of_sample(alloc: Global, seed: u64) -> Result<usize, AllocError> {
    let file = sample(alloc, seed)?;
    Ok(file.as_slice().len())
}

#[test]
fn files_have_the_length_of_their_seeds(rt: HostRuntime) {
    assert!(rt; length_of_sample(rt.alloc(), 0) == Ok(127_330));
}

#[test]
fn worked_rows_stand(_rt: HostRuntime) {
    worked_draws();
    worked_lines();
}
