//! The law of `about`.

ghost use Rattle.std.specs.Prelude.{◌≡◌, pos, negsuc, [], codes, Ok};
ghost use Rattle.slope_agreement.specs.Agreements.{predicted_agreement};
ghost use Rattle.station_curve.specs.Worked.{pier, pier_book};
ghost use Rattle.tide_answer.specs.Answers.{text_alone};
ghost use Rattle.command_laws.specs.Abouts.{AboutBoundsTurns, IsOutsideBlends, rise_in, unit_of_bound};
ghost use Rattle.command_laws.specs.Worked.{pier_answer};

use slope_agreement::predicted_agreements;

/// Proves that the level rises by at most the bound that `about` prints as `agreement`, in the minute
/// that begins at the listed minute of a high water of `predict` and in the next one; and that in the
/// two minutes from a low water's minute on it falls by at most this bound. The hours around a new year
/// are excepted.
pub fn about_bounds_the_printed_turns()
    ensures { AboutBoundsTurns }
{
    predicted_agreements();
}

/// Proves, for a half-daily tide as an example, that the level rises in the minute before a high
/// water and falls in the minute after it, each time by about half of the bound that `about` prints
/// as `agreement`; these minutes are at least an hour from a new year (`outside`). The bound is in
/// units of which about 1.4257 * 10^35 are a foot a minute.
pub fn worked_turns()
    ensures unit { unit_of_bound ≡ 142570234078617600000000000000000000 }
    ensures bound { predicted_agreement pier_book pier ≡ pos 10982486704628157235200000000000 }
    ensures rises { rise_in pier_book pier (pos 15791759) ≡ pos 5429074513713758208000000000000 }
    ensures falls { rise_in pier_book pier (pos 15791760) ≡ negsuc 5429074513713758207999999999999 }
    ensures outside { IsOutsideBlends pier_book (pos 15791759) × IsOutsideBlends pier_book (pos 15791760) }
    ensures printed { pier_answer [] (codes "about file=p station=Pier")
        ≡ Ok (text_alone (codes "Pier\nreference Pier\nunits feet\nconstituents 1\nagreement 10982486704628157235200000000000\n")) }
{}
