//! Laws of certificates.

ghost use Rattle.tide_answer.specs.Laws.{AcceptsWhatIsCertified, AcceptsOnlyInShort, AcceptsOnlyWhatIsTrue, CertifiesInShort};

use cert_text::{certificates_are_short, certificates_have_one_text, readings_go_by_the_grammar};

/// Proves that the command `check` accepts each certificate that the command `certify` returns, and that
/// it then lists the events of the same station, span and mark.
pub fn certified_is_accepted()
    ensures { AcceptsWhatIsCertified }
{
    readings_go_by_the_grammar();
}

/// Proves that each certificate that the command `certify` returns has fewer than 333,000,000 bytes, so
/// that it is short enough for the command `check`.
pub fn certified_is_short()
    ensures { CertifiesInShort }
{
    certificates_are_short();
}

/// Proves that each certificate that the command `check` accepts is true, however it was made: its
/// cells have exactly the events of its station, span and mark, and the answer of `check` lists
/// what `predict` lists for these.
pub fn accepted_is_true()
    ensures { AcceptsOnlyWhatIsTrue }
{
    certificates_have_one_text();
    readings_go_by_the_grammar();
}

/// Proves that each certificate that the command `check` accepts has fewer than 333,000,000 bytes,
/// however it was made.
pub fn accepted_is_short()
    ensures { AcceptsOnlyInShort }
{
    certificates_have_one_text();
    certificates_are_short();
    readings_go_by_the_grammar();
}
