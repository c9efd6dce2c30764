//! The law of `heights`.

ghost use Rattle.std.specs.Prelude.{◌≡◌, ℤ, [], codes, Ok};
ghost use Rattle.harmonics_book.specs.declared.book.Book.{Book};
ghost use Rattle.station_span.specs.Levels.{level_at};
ghost use Rattle.station_span.specs.Sites.{Site};
ghost use Rattle.text_laws.specs.Heights.{rows_over};
ghost use Rattle.tide_answer.specs.Answers.{rows_of, text_alone};
ghost use Rattle.command_laws.specs.Heights.{HeightsAreLevels};
ghost use Rattle.command_laws.specs.Worked.{pier_answer};

use text_laws::heights_are_levels;

/// Proves that `heights` prints the station's levels: the first row is the level at the first minute of
/// the span, each further row is one step later, up to and including the end of the span, and there is
/// no other row.
pub fn heights_has_a_row_each_step()
    ensures rows { (book : Book) (site : Site) (begin end step : ℤ)
        → rows_of book site begin end step ≡ rows_over (level_at book site) begin end step }
    ensures printed { HeightsAreLevels }
{
    heights_are_levels();
}

/// Proves examples of the rows that `heights` prints: for a span that ends between two rows, and for a
/// span that ends at a row.
pub fn sample_heights()
    ensures passed { pier_answer [] (codes "heights file=p station=Pier begin=2000-01-10T12:00Z end=2000-01-10T15:59Z step=120")
        ≡ Ok (text_alone (codes "Pier\n2000-01-10 12:00 UTC       1.00 feet\n2000-01-10 14:00 UTC       0.50 feet\n")) }
    ensures met { pier_answer [] (codes "heights file=p station=Pier begin=2000-01-10T12:00Z end=2000-01-10T14:00Z step=120")
        ≡ Ok (text_alone (codes "Pier\n2000-01-10 12:00 UTC       1.00 feet\n2000-01-10 14:00 UTC       0.50 feet\n")) }
{}
