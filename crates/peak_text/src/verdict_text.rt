//! The line that reports the verdict on a claimed highest water.

ghost use Rattle.std.specs.Prelude.{◌≡◌, ◌++◌, codes, IfOk, string_bytes};
ghost use Rattle.std.specs.Fmt.{signed_decimal};
ghost use Rattle.peak_text.specs.VerdictLines.{cell_line, verdict_line};

use decimal_text::Bytes;
use highest_water::PeakVerdict;
use std::alloc::{AllocError, Global};

/// Returns the line that reports `verdict` on a claimed highest water, with its LF: `Accepted`, or
/// `Rejected: ` and the first fault, such as `Rejected: cell 3 is above`.
///
/// # Errors
/// [`AllocError`] if memory runs out.
#[tactic(auto, unfolding(crate::specs::VerdictLines::verdict_line))]
pub fn verdict_line(alloc: Global, verdict: PeakVerdict) -> Result<Bytes, AllocError>
    ensures { IfOk result (λ line. line ≡ verdict_line verdict) }
{
    let text = match verdict {
        PeakVerdict::WrongLength { covered, wanted } => length_line(alloc, covered, wanted)?,
        PeakVerdict::Outside => String::from_str(alloc, "Rejected: at outside the span\n")?,
        PeakVerdict::NotUnder { cell } => cell_line(alloc, cell, " is not under\n")?,
        PeakVerdict::WrongValue { written, computed } => value_line(alloc, written, computed)?,
        PeakVerdict::Above { cell } => cell_line(alloc, cell, " is above\n")?,
        PeakVerdict::Accepted => String::from_str(alloc, "Accepted\n")?,
    };
    Ok(Bytes::from_vec(text.into_bytes()))
}

/// Returns the line for cells that have `covered` minutes in all instead of `wanted`.
fn length_line(alloc: Global, covered: i64, wanted: i64) -> Result<String, AllocError>
    ensures { IfOk result (λ text. string_bytes text
        ≡ (codes "Rejected: cells cover " ++ signed_decimal covered) ++ (codes " of " ++ signed_decimal wanted ++ codes " minutes\n")) }
{
    let mut text = format!(in alloc; "Rejected: cells cover {covered}")?;
    let end = format!(in alloc; " of {wanted} minutes\n")?;
    text.push_str(end.as_str())?;
    Ok(text)
}

/// Returns the line for the cell with the number `cell`, counted from 1, ending with `what`.
fn cell_line(alloc: Global, cell: u32, what: &str) -> Result<String, AllocError>
    ensures { IfOk result (λ text. string_bytes text ≡ cell_line cell what.now) }
{
    let mut text = format!(in alloc; "Rejected: cell {cell}")?;
    text.push_str(what)?;
    Ok(text)
}

/// Returns the line for a certificate's value `written` that isn't the `computed` one.
fn value_line(alloc: Global, written: i128, computed: i128) -> Result<String, AllocError>
    ensures { IfOk result (λ text. string_bytes text
        ≡ (codes "Rejected: value " ++ signed_decimal written) ++ (codes ", computed " ++ signed_decimal computed ++ codes "\n")) }
{
    let mut text = format!(in alloc; "Rejected: value {written}")?;
    let end = format!(in alloc; ", computed {computed}\n")?;
    text.push_str(end.as_str())?;
    Ok(text)
}
