//! Texts shared by the tests of several crates.

ghost use Rattle.std.specs.Prelude.{◌≡◌, IfOk, map};
ghost use Rattle.std.specs.List.{slice_split};
ghost use Rattle.sample_tides.specs.Texts.{is_bar, words_in};

use decimal_text::{Text, Words};
use std::alloc::{AllocError, Global};

/// A file of harmonic constants for 1999 to 2001 with one station, `Pier`, and one constituent, with a
/// period of 12 hours and an amplitude of 1 foot.
pub const PIER: &str =
    "# Pier test\n1\nS2 30.0000000\n1999\n3\nS2\n0 0 0\n*END*\n3\nS2\n1 1 1\n*END*\n\
    Pier\n0:00 :UTC\n0 feet\nS2 1 0\n";

/// The listing of the events of `Pier` from 2000-01-10 up to 2000-01-11, not included, in universal
/// time.
pub const DAY: &str = "Pier\n\
    2000-01-10 06:00 UTC      -1.00 feet  Low Tide\n\
    2000-01-10 11:59 UTC       1.00 feet  High Tide\n\
    2000-01-10 18:00 UTC      -1.00 feet  Low Tide\n\
    2000-01-10 23:59 UTC       1.00 feet  High Tide\n";

fn parts(alloc: Global, line: &str) -> Result<Vec<&str>, AllocError>
    ensures { IfOk result (λ v. map (λ part. part.now) v.items ≡ slice_split is_bar line.now) }
{
    line.split('|').collect(alloc)
}

fn texts(alloc: Global, parts: &[&str]) -> Result<Vec<Text>, AllocError>
    ensures { IfOk result (λ v. v.items ≡ map (λ part. part.now) parts.now) }
{
    let mut texts = Vec::new(alloc);
    for part in parts {
        texts.push(Text::from_str(alloc, part)?)?;
    }
    Ok(texts)
}

/// Returns the parts of `line` between its `|`, empty ones included; no part if `line` is empty.
///
/// # Errors
/// [`AllocError`] if memory runs out.
pub fn words_of(alloc: Global, line: &str) -> Result<Words, AllocError>
    ensures { IfOk result (λ words. words ≡ words_in line.now) }
{
    if line.is_empty() {
        return Ok(Words::from_vec(Vec::new(alloc)));
    }
    let parts = parts(alloc, line)?;
    Ok(Words::from_vec(texts(alloc, &parts)?))
}
