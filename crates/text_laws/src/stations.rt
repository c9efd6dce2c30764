//! The law of the list of stations.

ghost use Rattle.std.specs.Prelude.{◌≡◌, ◌≢◌, ◌⊎◌, ℕ, List, [], ◌∷◌, ◌++◌, All, codes, Err};
ghost use Rattle.std.specs.List.{flat_map};
ghost use Rattle.event_text.specs.Lines.{text_of_unit};
ghost use Rattle.harmonics_book.specs.declared.book.Book.{Book};
ghost use Rattle.harmonics_book.specs.declared.book.Units.{Units};
ghost use Rattle.harmonics_book.specs.Worked.{pier_book};
ghost use Rattle.listing.specs.StationLists.{stations_text_of};
ghost use Rattle.station_table.specs.declared.finding.FindFault.{FindFault};
ghost use Rattle.station_table.specs.declared.offsets.Offsets.{Offsets};
ghost use Rattle.station_table.specs.Bases.{basis_of, basis_over};
ghost use Rattle.station_table.specs.Worked.{dock_rows};
ghost use Rattle.text_laws.specs.Stations.{station_lines, FindsRow, FindsStation, SaysUnit};

/// Proves what the list of stations shows, and that each listed name can be requested.
///
/// - `lines`: the list has a line for each station of the harmonics file `book`, then one for each row
///   of `table`.
/// - `references`: a request by a listed station's name finds a station of `book` with this name.
/// - `rows`: a request by a row's name finds a station of `book` or else a row with this name.
/// - `units`: a row's line has the unit of its reference station, or `-` exactly if `book` lacks this
///   station.
/// - `dash`: `-` isn't the text of a unit.
pub fn stations_list_what_can_be_requested()
    ensures lines { (book : Book) (table : List Offsets) →
        stations_text_of book table ≡ flat_map (λ line. line) (station_lines book table) }
    ensures references { (book : Book) (table : List Offsets) →
        All (λ station. FindsStation book table station.name) book.stations }
    ensures rows { (book : Book) (table : List Offsets) →
        All (λ row. FindsStation book table row.name ⊎ FindsRow book table row.name) table }
    ensures units { (book : Book) (index : ℕ) (row : Offsets) → SaysUnit book index row (basis_over book index row) }
    ensures dash { (units : Units) → text_of_unit units ≢ codes "-" }
{}

/// Proves an example of a missing reference station: the row `Lost`, at index 2 of the table, names a
/// reference that the harmonics file doesn't have. So a request for `Lost` finds the row but is
/// refused.
#[tactic(auto, unfolding(station_table::specs::Bases::basis_of, station_table::specs::Bases::basis_in, station_table::specs::Bases::basis_over))]
pub fn worked_missing_reference()
    ensures { basis_of pier_book dock_rows (codes "Lost") ≡ Err (FindFault.NoReference 2) }
{}
