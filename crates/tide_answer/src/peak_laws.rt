//! Laws of certificates of a highest water.

ghost use Rattle.tide_answer.specs.PeakLaws.{
  AcceptsOnlyPeaksInShort,
  AcceptsOnlyTruePeaks,
  AcceptsWhatPeakCertifies,
  PeakCertifiesInShort,
  ReportsTheHighest,
};

use peak_text::{
    peak_certificates_have_one_text, peak_readings_go_by_the_grammar, peak_texts_are_short,
};

/// Proves that the command `highest` prints the highest water of the requested span: no level of the
/// station in the span is higher than the printed one. Its minute is the first at which the reference
/// station has its greatest level, among the minutes that the high-water offset moves into the span,
/// plus the offset's minutes.
pub fn highest_is_reported()
    ensures { ReportsTheHighest }
{}

/// Proves that the command `peakcheck` accepts each certificate that the command `peak` returns: it
/// prints `Accepted` and then what `highest` prints in universal time for the same station and span.
pub fn peak_certified_is_accepted()
    ensures { AcceptsWhatPeakCertifies }
{
    peak_readings_go_by_the_grammar();
}

/// Proves that each certificate that the command `peak` returns has fewer than 10,542,000 bytes, so that
/// it is short enough for the command `peakcheck`.
pub fn peak_certified_is_short()
    ensures { PeakCertifiesInShort }
{
    peak_texts_are_short();
}

/// Proves that each certificate that the command `peakcheck` accepts is true, however it was made:
/// its minute is the reference station's minute of the highest water, its value is a million times
/// the reference's level then (in units of which 4,147,200,000,000,000,000 are a millionth of the
/// station's unit), and the answer shows what `highest` prints in universal time for its station
/// and span.
pub fn accepted_peak_is_true()
    ensures { AcceptsOnlyTruePeaks }
{
    peak_certificates_have_one_text();
    peak_readings_go_by_the_grammar();
}

/// Proves that each certificate that the command `peakcheck` accepts has fewer than 10,542,000
/// bytes, however it was made.
pub fn accepted_peak_is_short()
    ensures { AcceptsOnlyPeaksInShort }
{
    peak_certificates_have_one_text();
    peak_texts_are_short();
    peak_readings_go_by_the_grammar();
}
