//! Laws of a certificate that one run writes and the next run checks.

ghost use Rattle.tide_desk.specs.PassedOn.{ChecksPeakThatCame, ChecksWhatCame, ChecksWhatWasCertified, ChecksWhatPeakCertified};
ghost use Rattle.tide_desk.specs.Promises.{states};

use crate::certificate_laws::what_certify_answers_is_accepted;
use crate::peak_laws::what_peak_answers_is_accepted;
use tide_answer::{certified_is_accepted, peak_certified_is_accepted};
use tide_edge::{Clock, Files, Sink};

/// Proves that the command `check` accepts the certificate that a run of `certify` has written without a
/// fault, and lists its events, or runs out of memory, if the files, the clock and the outputs of the
/// check don't fail. The two runs may have files, clocks and outputs of different types. Also proves
/// this for files, clocks and outputs that may fail, about the bytes that each run read, unless a write
/// of the answer of `check` failed.
pub fn what_was_certified_is_checked<F, O, E, K, G, P, D, L>()
where
    F: Files,
    O: Sink,
    E: Sink,
    K: Clock,
    G: Files,
    P: Sink,
    D: Sink,
    L: Clock,
    ensures held { ChecksWhatWasCertified (states F.state O.state E.state K.state) (states G.state P.state D.state L.state) }
    ensures came { ChecksWhatCame (states F.state O.state E.state K.state) (states G.state P.state D.state L.state) }
{
    what_certify_answers_is_accepted();
    certified_is_accepted();
}

/// Proves that the command `peakcheck` accepts the certificate that a run of `peak` has written without
/// a fault, and prints its highest water, or runs out of memory, if the files, the clock and the outputs
/// of the check don't fail. Also proves this for files, clocks and outputs that may fail, about the
/// bytes that each run read, unless a write of the answer of `peakcheck` failed.
pub fn what_peak_certified_is_checked<F, O, E, K, G, P, D, L>()
where
    F: Files,
    O: Sink,
    E: Sink,
    K: Clock,
    G: Files,
    P: Sink,
    D: Sink,
    L: Clock,
    ensures held { ChecksWhatPeakCertified (states F.state O.state E.state K.state) (states G.state P.state D.state L.state) }
    ensures came { ChecksPeakThatCame (states F.state O.state E.state K.state) (states G.state P.state D.state L.state) }
{
    what_peak_answers_is_accepted();
    peak_certified_is_accepted();
}
