//! The faults of a certificate's tracks.

ghost use Rattle.std.specs.Prelude.{◌≡◌, ◌++◌, codes, decimal, IfOk, string_bytes};
ghost use Rattle.std.specs.Fmt.{signed_decimal};
ghost use Rattle.cert_text.specs.Tracks.{track_word};
ghost use Rattle.station_span.specs.Rejections.{cell_text, finding_text, rejection_line};

use cert_text::TrackName;
use curve_law::Verdict;
use decimal_text::Bytes;
use std::alloc::{AllocError, Global};

/// The first fault that the check of a certificate finds.
#[derive(Clone, Copy, PartialEq, Eq)]
pub enum Rejection {
    /// The station's slack waters are listed, but the certificate has no cells for them.
    SlackWanted,
    /// The certificate has cells for slack waters, but the station's slack waters aren't listed.
    SlackNotWanted,
    /// The cells of this track don't cover the span or don't agree with the curve; the verdict says
    /// why.
    Track(TrackName, Verdict),
}

/// Returns the line, with its LF, that says why a certificate is rejected.
///
/// # Errors
/// [`AllocError`] if memory runs out.
#[tactic(auto, unfolding(crate::specs::Rejections::rejection_line))]
pub fn rejection_line(alloc: Global, rejection: Rejection) -> Result<Bytes, AllocError>
    ensures { IfOk result (λ line. line ≡ rejection_line rejection) }
{
    let text = match rejection {
        Rejection::SlackWanted => String::from_str(alloc, "Rejected: slack track wanted\n")?,
        Rejection::SlackNotWanted => {
            String::from_str(alloc, "Rejected: slack track not wanted\n")?
        }
        Rejection::Track(track, finding) => track_text(alloc, track, finding)?,
    };
    Ok(Bytes::from_vec(text.into_bytes()))
}

/// Returns the line of the verdict `finding` on `track`.
fn track_text(alloc: Global, track: TrackName, finding: Verdict) -> Result<String, AllocError>
    ensures { IfOk result (λ text. string_bytes text ≡ codes "Rejected: track " ++ track_word track ++ finding_text finding) }
{
    let mut text = String::from_str(alloc, "Rejected: track ")?;
    text.push_str(track.word())?;
    let said = finding_text(alloc, finding)?;
    text.push_str(said.as_str())?;
    Ok(text)
}

/// Returns the end of the line that reports a track's verdict: what `finding` says about the cells.
#[tactic(auto, unfolding(crate::specs::Rejections::finding_text))]
fn finding_text(alloc: Global, finding: Verdict) -> Result<String, AllocError>
    ensures { IfOk result (λ text. string_bytes text ≡ finding_text finding) }
{
    match finding {
        Verdict::Accepted => String::from_str(alloc, ": accepted\n"),
        Verdict::WrongLength { covered, wanted } => length_text(alloc, covered, wanted),
        Verdict::NotQuiet { cell } => cell_text(alloc, cell, " is not quiet\n"),
        Verdict::WrongStep { cell } => cell_text(alloc, cell, " has the wrong step\n"),
        Verdict::WrongLevel {
            cell,
            written,
            computed,
        } => level_text(alloc, cell, written, computed),
    }
}

/// Returns the end of the line for cells that have `covered` minutes instead of `wanted`.
fn length_text(alloc: Global, covered: i64, wanted: i64) -> Result<String, AllocError>
    ensures { IfOk result (λ text. string_bytes text
        ≡ (codes ": cells cover " ++ signed_decimal covered) ++ (codes " of " ++ signed_decimal wanted ++ codes " minutes\n")) }
{
    let mut text = format!(in alloc; ": cells cover {covered}")?;
    let end = format!(in alloc; " of {wanted} minutes\n")?;
    text.push_str(end.as_str())?;
    Ok(text)
}

/// Returns the end of the line for the cell with the number `cell`, counted from 1.
fn cell_text(alloc: Global, cell: u32, said: &str) -> Result<String, AllocError>
    ensures { IfOk result (λ text. string_bytes text ≡ cell_text cell ++ said.now) }
{
    let mut text = format!(in alloc; ": cell {cell}")?;
    text.push_str(said)?;
    Ok(text)
}

/// Returns the end of the line for a cell with a `written` level other than the `computed` one, in
/// millionths.
fn level_text(alloc: Global, cell: u32, written: i64, computed: i64) -> Result<String, AllocError>
    ensures { IfOk result (λ text. string_bytes text
        ≡ cell_text cell ++ (codes " has level " ++ signed_decimal written)
        ++ (codes ", computed " ++ signed_decimal computed ++ codes "\n")) }
{
    let level = format!(in alloc; " has level {written}")?;
    let end = format!(in alloc; ", computed {computed}\n")?;
    let mut text = cell_text(alloc, cell, level.as_str())?;
    text.push_str(end.as_str())?;
    Ok(text)
}
