//! A certificate of a highest water worked out by hand.

ghost use Rattle.std.specs.Prelude.{◌≡◌, ◌++◌, codes, map, take, Ok, Err};
ghost use Rattle.cert_text.specs.Texts.{joined};
ghost use Rattle.peak_text.specs.declared.fault.PeakFault.{PeakFault};
ghost use Rattle.peak_text.specs.PeakTexts.{peak_text};
ghost use Rattle.peak_text.specs.PeakReadings.{peak_of};
ghost use Rattle.peak_text.specs.Worked.{pier, pier_lines, pier_with, changes};

/// Proves the text of the example certificate `pier` of a highest water: the lines `pier_lines`,
/// each with its LF.
pub fn worked_peak_texts()
    ensures pier { peak_text pier ≡ joined pier_lines }
{}

/// Proves that the text of the example certificate `pier` reads as this certificate, and which
/// line, counted from 1, is reported for bytes that aren't the text of a certificate: with one line
/// changed, no bytes at all, without the last line, with a last line that has no LF, and with
/// another line at the end.
pub fn worked_peak_readings()
    ensures pier { peak_of (joined pier_lines) ≡ Ok pier }
    ensures changed { map (λ c. peak_of (pier_with c)) changes ≡ map (λ c. Err (PeakFault.NotACertificate c.at)) changes }
    ensures empty { peak_of (codes "") ≡ Err (PeakFault.NotACertificate 1) }
    ensures not_done { peak_of (joined (take 30 pier_lines)) ≡ Err (PeakFault.NotACertificate 31) }
    ensures no_lf { peak_of (joined (take 30 pier_lines) ++ codes "done") ≡ Err (PeakFault.NotACertificate 31) }
    ensures more { peak_of (joined pier_lines ++ codes "m\n") ≡ Err (PeakFault.NotACertificate 32) }
{}
