//! Theorems about the texts of certificates.

ghost use Rattle.std.specs.Prelude.{◌≡◌, ◌≢◌, ℕ, ◌+◌, ◌*◌, ◌<◌, ◌≤◌, List, ◌++◌, length, Ok, Err};
ghost use Rattle.curve_law.specs.declared.cell.Cell.{Cell};
ghost use Rattle.cert_text.specs.declared.certificate.Certificate.{Certificate};
ghost use Rattle.cert_text.specs.declared.fault.CertFault.{CertFault};
ghost use Rattle.cert_text.specs.declared.track_name.TrackName.{TrackName};
ghost use Rattle.cert_text.specs.Certificates.{IsCell, IsCertificate, HasUsualLevel, HasUsualLevels, cell_count};
ghost use Rattle.cert_text.specs.Lines.{
  cell_line_of,
  last_line,
  head_lines_of,
  track_lines_of,
  lines_if_there,
  lines_of,
  ended,
  joined,
  certificate_text,
};
ghost use Rattle.cert_text.specs.Spelling.{Spells, IsTextOf, IsFaultLine, Reads};
ghost use Rattle.cert_text.specs.Readings.{certificate_of};

/// Proves that each certificate with fields in the ranges that [`Certificate`](crate::Certificate)
/// lists has exactly one text, both as lines and as bytes. Also proves that no other certificate
/// has a text, and that two different certificates never have the same text.
pub fn certificates_have_one_text()
    ensures lines { (c : Certificate) → IsCertificate c → Spells c (lines_of c) }
    ensures only_lines { (c : Certificate) (lines : List (List ℕ)) →
        Spells c lines → IsCertificate c × (lines ≡ lines_of c) }
    ensures text { (c : Certificate) → IsCertificate c → IsTextOf c (certificate_text c) }
    ensures only_text { (c : Certificate) (bytes : List ℕ) →
        IsTextOf c bytes → IsCertificate c × (certificate_text c ≡ bytes) }
    ensures one_certificate { (c d : Certificate) (bytes : List ℕ) →
        IsTextOf c bytes → IsTextOf d bytes → c ≡ d }
{}

/// Proves that the text of a certificate consists of its first five lines, the lines of each track,
/// and the last line, in this order. Also proves that the line of a cell (a claim about consecutive
/// minutes) has at most 24 bytes with its LF, and the whole text at most 536 bytes and 24 for each
/// cell.
pub fn texts_come_in_parts()
    ensures parts { (c : Certificate) → certificate_text c
        ≡ joined (head_lines_of c) ++ joined (track_lines_of TrackName.Turn c.tracks.turn)
        ++ joined (lines_if_there TrackName.Slack c.tracks.slack)
        ++ joined (lines_if_there TrackName.Mark c.tracks.mark) ++ ended last_line }
    ensures cell { (cell : Cell) → IsCell cell → length (ended (cell_line_of cell)) ≤ 24 }
    ensures length_bound { (c : Certificate) → IsCertificate c →
        length (certificate_text c) ≤ 536 + 24 * cell_count c }
{}

/// Proves bounds for certificates with levels from -11,000 to 11,000 of the station's units: the
/// line of a cell (a claim about consecutive minutes) has at most 21 bytes with its LF, and the
/// whole text at most 536 bytes and 21 for each cell. With at most 15,819,840 cells (three tracks
/// of 5,273,280 one-minute cells, more than the longest span has) it has fewer than 333,000,000
/// bytes.
pub fn certificates_are_short()
    ensures cell { (cell : Cell) → IsCell cell → HasUsualLevel cell → length (ended (cell_line_of cell)) ≤ 21 }
    ensures length_bound { (c : Certificate) → IsCertificate c → HasUsualLevels c →
        length (certificate_text c) ≤ 536 + 21 * cell_count c }
    ensures fits { (c : Certificate) → IsCertificate c → HasUsualLevels c → cell_count c ≤ 15819840 →
        length (certificate_text c) < 333000000 }
{}

/// Proves that `certificate_of`, the result of reading bytes line by line with enough memory,
/// follows the grammar for all bytes: it is the certificate with this text or, if there is none,
/// the first line such that no certificate begins with the lines up to it. It is never the fault
/// that memory ran out. The text of a certificate reads as this certificate, and given bytes have
/// at most one `IsFaultLine` (the number of the first line such that no certificate begins with the
/// lines up to it).
pub fn readings_go_by_the_grammar()
    ensures reads { (bytes : List ℕ) → Reads bytes (certificate_of bytes) }
    ensures never_memory { (bytes : List ℕ) → certificate_of bytes ≢ Err CertFault.NoMemory }
    ensures again { (c : Certificate) → IsCertificate c → certificate_of (certificate_text c) ≡ Ok c }
    ensures one_line { (bytes : List ℕ) (m n : ℕ) →
        IsFaultLine bytes m → IsFaultLine bytes n → m ≡ n }
{}
