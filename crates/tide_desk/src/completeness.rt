//! Laws of runs over files, outputs and a clock that don't fail.

ghost use Rattle.tide_desk.specs.Completeness.{
  EndsByItsAnswer,
  EndsByWhatCame,
  IsComplete,
  AcceptsValid,
  AcceptsValidPeaks,
  IsValidIfAccepted,
  IsValidPeakIfAccepted,
};
ghost use Rattle.tide_desk.specs.Promises.{states};

use crate::certificate_laws::what_check_accepts_is_true;
use crate::peak_laws::what_peakcheck_accepts_is_true;
use tide_edge::{Clock, Files, Sink};

/// Proves that a run over files, a clock and outputs that don't fail ends with the answer to its
/// arguments, or out of memory. Also proves that a run over files, a clock and outputs that may fail
/// ends with the answer for the bytes that it read from its files and the minute that its clock
/// returned, or out of memory, unless a write of the answer failed.
pub fn runs_end_by_their_answers<F: Files, O: Sink, E: Sink, K: Clock>()
    ensures held { EndsByItsAnswer (states F.state O.state E.state K.state) }
    ensures came { EndsByWhatCame (states F.state O.state E.state K.state) }
{}

/// Proves that a run for a request that nothing refuses ends with the whole text of its answer written,
/// or out of memory. The conditions: the files that the arguments name exist, can always be opened and
/// read, and are no longer than may be read (67,108,864 bytes, but 1,048,576 for a zone and 400,000,000
/// for a certificate); and the clock and the outputs don't fail.
pub fn runs_are_complete<F: Files, O: Sink, E: Sink, K: Clock>()
    ensures { IsComplete (states F.state O.state E.state K.state) }
{}

/// Proves that the command `check` accepts each valid certificate (whose cells agree with the
/// curves of its station), however it was made, or runs out of memory, if the files, the clock and
/// the outputs don't fail. Also proves that it accepts no certificate that isn't valid.
pub fn valid_certificates_are_accepted<F: Files, O: Sink, E: Sink, K: Clock>()
    ensures valid { AcceptsValid (states F.state O.state E.state K.state) }
    ensures no_other { IsValidIfAccepted }
{
    what_check_accepts_is_true();
}

/// Proves that the command `peakcheck` accepts each valid certificate of a highest water (whose
/// highest water and cells agree with the curve of the level), however it was made, or runs out of
/// memory, if the files, the clock and the outputs don't fail. Also proves that it accepts no
/// certificate that isn't valid.
pub fn valid_peaks_are_accepted<F: Files, O: Sink, E: Sink, K: Clock>()
    ensures valid { AcceptsValidPeaks (states F.state O.state E.state K.state) }
    ensures no_other { IsValidPeakIfAccepted }
{
    what_peakcheck_accepts_is_true();
}
