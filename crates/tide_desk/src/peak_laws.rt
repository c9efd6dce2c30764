//! Laws of certificates of a highest water over files and arguments.

ghost use Rattle.tide_desk.specs.PeakLaws.{AcceptsOnlyTruePeaks, AcceptsWhatPeakAnswers};

use tide_answer::{accepted_peak_is_true, peak_certified_is_accepted, peak_certified_is_short};

/// Proves that the command `peakcheck` accepts each certificate that the command `peak` returns, if
/// it is put into a file and the harmonic constants and the table of offsets are the same, and that
/// it then prints what `highest` prints in universal time for the same station and span.
pub fn what_peak_answers_is_accepted()
    ensures { AcceptsWhatPeakAnswers }
{
    peak_certified_is_accepted();
    peak_certified_is_short();
}

/// Proves that each certificate that the command `peakcheck` accepts is true, however it was made:
/// its minute is the reference station's minute of the highest water, its value is a million times
/// the reference's level then (in units of which 4,147,200,000,000,000,000 are a millionth of the
/// station's unit), and the answer of `peakcheck` shows what `highest` prints in universal time for
/// its station and span.
pub fn what_peakcheck_accepts_is_true()
    ensures { AcceptsOnlyTruePeaks }
{
    accepted_peak_is_true();
}
