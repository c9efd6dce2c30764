//! Laws of certificates over files and arguments.

ghost use Rattle.tide_desk.specs.Laws.{AcceptsWhatCertifyAnswers, AcceptsOnlyTrueCertificates};

use tide_answer::{accepted_is_true, certified_is_accepted, certified_is_short};

/// Proves that the command `check` accepts each certificate that the command `certify` returns, if
/// it is put into a file, the harmonic constants and the table of offsets are the same, and the
/// zone of the check can be read. Also proves that it then lists what `predict` prints for the same
/// station, span and mark.
pub fn what_certify_answers_is_accepted()
    ensures { AcceptsWhatCertifyAnswers }
{
    certified_is_accepted();
    certified_is_short();
}

/// Proves that each certificate that the command `check` accepts is true, however it was made: its
/// cells have exactly the events of its station, span and mark, and the answer of `check` lists
/// what `predict` prints for these.
pub fn what_check_accepts_is_true()
    ensures { AcceptsOnlyTrueCertificates }
{
    accepted_is_true();
}
