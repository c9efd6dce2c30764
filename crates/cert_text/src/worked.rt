//! Certificates worked out by hand.

ghost use Rattle.std.specs.Prelude.{◌≡◌, ◌++◌, codes, map, take, Ok, Err};
ghost use Rattle.cert_text.specs.declared.fault.CertFault.{CertFault};
ghost use Rattle.cert_text.specs.Lines.{certificate_text, joined};
ghost use Rattle.cert_text.specs.Readings.{certificate_of};
ghost use Rattle.cert_text.specs.Worked.{pier, pier_lines, narrows, narrows_lines, pier_with, changes};

/// Proves the texts of two example certificates: `pier` has one track and no mark, and `narrows`
/// has all three tracks and a mark.
pub fn worked_texts()
    ensures pier { certificate_text pier ≡ joined pier_lines }
    ensures narrows { certificate_text narrows ≡ joined narrows_lines }
{}

/// Proves that the text of the example certificate `pier` reads as this certificate, and which line
/// is reported for bytes that aren't the text of a certificate: with one line changed, no bytes at
/// all, without the last line, with a last line that has no LF, and with another line at the end.
pub fn worked_readings()
    ensures pier { certificate_of (joined pier_lines) ≡ Ok pier }
    ensures changed { map (λ c. certificate_of (pier_with c)) changes ≡ map (λ c. Err (CertFault.NotACertificate c.at)) changes }
    ensures empty { certificate_of (codes "") ≡ Err (CertFault.NotACertificate 1) }
    ensures not_done { certificate_of (joined (take 10 pier_lines)) ≡ Err (CertFault.NotACertificate 11) }
    ensures no_lf { certificate_of (joined (take 10 pier_lines) ++ codes "done") ≡ Err (CertFault.NotACertificate 11) }
    ensures more { certificate_of (joined pier_lines ++ codes "\n") ≡ Err (CertFault.NotACertificate 12) }
{}
