//! Theorems about the texts of certificates of a highest water.

ghost use Rattle.std.specs.Prelude.{◌≡◌, ◌≢◌, ℕ, ◌+◌, ◌*◌, ◌<◌, ◌≤◌, List, length, Ok, Err};
ghost use Rattle.peak_text.specs.declared.certificate.PeakCertificate.{PeakCertificate};
ghost use Rattle.peak_text.specs.declared.fault.PeakFault.{PeakFault};
ghost use Rattle.highest_water.specs.Covers.{all_minutes};
ghost use Rattle.peak_text.specs.PeakTexts.{IsPeakCertificate, peak_lines_of, peak_text};
ghost use Rattle.peak_text.specs.PeakSpelling.{SpellsPeak, IsPeakTextOf, IsPeakFaultLine, ReadsPeak};
ghost use Rattle.peak_text.specs.PeakReadings.{peak_of};

/// Proves that each certificate of a highest water with fields in the ranges that
/// [`PeakCertificate`](crate::PeakCertificate) lists has exactly one text, both as lines and as
/// bytes. Also proves that no other certificate has a text, and that two different certificates
/// never have the same text.
pub fn peak_certificates_have_one_text()
    ensures lines { (c : PeakCertificate) → IsPeakCertificate c → SpellsPeak c (peak_lines_of c) }
    ensures only_lines { (c : PeakCertificate) (lines : List (List ℕ)) →
        SpellsPeak c lines → IsPeakCertificate c × (lines ≡ peak_lines_of c) }
    ensures text { (c : PeakCertificate) → IsPeakCertificate c → IsPeakTextOf c (peak_text c) }
    ensures only_text { (c : PeakCertificate) (bytes : List ℕ) →
        IsPeakTextOf c bytes → IsPeakCertificate c × (peak_text c ≡ bytes) }
    ensures one_certificate { (c d : PeakCertificate) (bytes : List ℕ) →
        IsPeakTextOf c bytes → IsPeakTextOf d bytes → c ≡ d }
{}

/// Proves that the text of a certificate of a highest water has at most 545 bytes and 2 for each
/// minute of its cells. If the cells have at most 5,270,400 minutes, as in the longest span, the
/// text has fewer than 10,542,000 bytes, and so is short enough to be read.
pub fn peak_texts_are_short()
    ensures length_bound { (c : PeakCertificate) → IsPeakCertificate c →
        length (peak_text c) ≤ 545 + 2 * all_minutes c.peak.cells }
    ensures fits { (c : PeakCertificate) → IsPeakCertificate c → all_minutes c.peak.cells ≤ 5270400 →
        length (peak_text c) < 10542000 }
{}

/// Proves that `peak_of`, the result of reading bytes line by line with enough memory, follows the
/// grammar for all bytes: it is the certificate of a highest water with this text or, if there is
/// none, the first line such that no certificate begins with the lines up to it. It is never the
/// fault that memory ran out. The text of a certificate reads as this certificate, and given bytes
/// have at most one `IsPeakFaultLine` (the number of the first line such that no certificate begins
/// with the lines up to it).
pub fn peak_readings_go_by_the_grammar()
    ensures reads { (bytes : List ℕ) → ReadsPeak bytes (peak_of bytes) }
    ensures never_memory { (bytes : List ℕ) → peak_of bytes ≢ Err PeakFault.NoMemory }
    ensures again { (c : PeakCertificate) → IsPeakCertificate c → peak_of (peak_text c) ≡ Ok c }
    ensures one_line { (bytes : List ℕ) (m n : ℕ) →
        IsPeakFaultLine bytes m → IsPeakFaultLine bytes n → m ≡ n }
{}
