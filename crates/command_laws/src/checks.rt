//! The law of `check` and `predict`.

ghost use Rattle.std.specs.Prelude.{◌≡◌, [], ◌∷◌, codes, false, pos, Ok};
ghost use Rattle.tide_answer.specs.Answers.{text_alone};
ghost use Rattle.tide_desk.specs.Answers.{answer_of};
ghost use Rattle.command_laws.specs.Checks.{CheckShowsPredict, CheckShowsSameArguments, TakesItsArguments};
ghost use Rattle.command_laws.specs.Worked.{pier_answer, pier_with_certificate};

use tide_desk::what_certify_answers_is_accepted;

/// Proves that `check`, given the text that `certify` returned, prints `Accepted` and then what
/// `predict` prints for the station, span and mark of the `certify` request.
pub fn check_shows_predict()
    ensures any_words { CheckShowsPredict }
    ensures arguments { TakesItsArguments }
    ensures same_arguments { CheckShowsSameArguments }
{
    what_certify_answers_is_accepted();
}

/// Proves an example: the certificate of three minutes around a high water, what `predict` prints for
/// the same arguments, and what `check` prints for the certificate.
pub fn worked_checks()
    ensures certified { pier_answer [] (codes "certify file=p station=Pier begin=2000-01-10T11:58Z end=2000-01-10T12:01Z")
        ≡ Ok (record {
          text = codes
              "tide certificate 2\nstation Pier\nbegin 2000-01-10T11:58Z\nend 2000-01-10T12:01Z\nmark none\ntrack turn\ns\nt high 999962\ns\ndone\n";
          rejected = false;
          cells = 3;
        }) }
    ensures listed { pier_answer [] (codes "predict file=p station=Pier begin=2000-01-10T11:58Z end=2000-01-10T12:01Z")
        ≡ Ok (record { text = codes "Pier\n2000-01-10 11:59 UTC       1.00 feet  High Tide\n"; rejected = false; cells = 3 }) }
    ensures checked { answer_of [] pier_with_certificate (pos 0) (codes "check" ∷ codes "file=p" ∷ codes "certificate=c" ∷ [])
        ≡ Ok (text_alone (codes "Accepted\nPier\n2000-01-10 11:59 UTC       1.00 feet  High Tide\n")) }
{
    check_shows_predict();
}
