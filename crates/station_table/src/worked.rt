//! Examples of fields, rows, tables and bases (reference stations with offsets), computed by hand.

ghost use Rattle.std.specs.Prelude.{◌≡◌, ◌++◌, [], ◌∷◌, codes, map, take, pos, negsuc, Ok, Err, Some, None};
ghost use Rattle.harmonics_book.specs.Worked.{pier_book};
ghost use Rattle.station_table.specs.declared.fault.OffsetFault.{OffsetFault};
ghost use Rattle.station_table.specs.declared.fault.OffsetWhy.{OffsetWhy};
ghost use Rattle.station_table.specs.declared.finding.FindFault.{FindFault};
ghost use Rattle.station_table.specs.declared.header.Header.{Header};
ghost use Rattle.station_table.specs.Bases.{basis_of, reference_basis, usual};
ghost use Rattle.station_table.specs.Fields.{add_of, times_of, plus_of, name_of};
ghost use Rattle.station_table.specs.Table.{offsets_of, table_of};
ghost use Rattle.station_table.specs.Worked.{
  plain_header,
  slack_header,
  dock_file,
  dock_rows,
  dock_high,
  dock_low,
  gate_fields,
  gate_row,
  gate_with,
  changes,
};

/// Proves the values of some fields of a table: minutes added to a time (`add_of`), factors of a
/// level and heights added to it, both in millionths (`times_of` and `plus_of`), and names
/// (`name_of`). An empty field of a number changes nothing. The ends of the ranges are 24 hours
/// later and earlier, factors of 0.000001 and 100, and heights of 10000 and -10000. `negsuc n` is
/// -(n + 1).
#[tactic(auto, unfolding(crate::proofs::OnLiterals::table_on_literals))]
pub fn worked_fields()
    ensures greatest_add { add_of (codes "24:00") ≡ Ok (pos 1440) }
    ensures least_add { add_of (codes "-24:00") ≡ Ok (negsuc 1439) }
    // A time to add may have a plus sign.
    ensures signed_add { add_of (codes "+0:05") ≡ Ok (pos 5) }
    // An empty field adds no minutes.
    ensures no_add { add_of [] ≡ Ok (pos 0) }
    // The factors 0.000001 and 100, the ends of the range.
    ensures least_factor { times_of (codes "0.000001") ≡ Ok (pos 1) }
    ensures greatest_factor { times_of (codes "100") ≡ Ok (pos 100000000) }
    // An empty field is the factor 1.
    ensures no_factor { times_of [] ≡ Ok (pos 1000000) }
    // The heights 10000 and -10000, the ends of the range.
    ensures more { plus_of (codes "10000") ≡ Ok (pos 10000000000) }
    ensures less { plus_of (codes "-10000") ≡ Ok (negsuc 9999999999) }
    // An empty field adds no height.
    ensures no_more { plus_of [] ≡ Ok (pos 0) }
    // A name may be a single space.
    ensures spaced { name_of (codes " ") ≡ Ok (codes " ") }
    // A name may have letters of UTF-8 outside ASCII: an e with an acute accent.
    ensures accented { name_of (195 ∷ 169 ∷ []) ≡ Ok (195 ∷ 169 ∷ []) }
{}

/// Proves which station an example row of ten fields gives (`gate`), and why it is bad if one of
/// its fields is changed (`changes` lists the changes with the reasons) or if the header has
/// another number of columns than the row has fields (`long` and `short`).
#[tactic(auto, unfolding(crate::proofs::OnLiterals::table_on_literals))]
pub fn sample_rows()
    ensures gate { offsets_of Header.WithSlack gate_fields ≡ Ok gate_row }
    // Each changed row has the fault that is listed with the change.
    ensures changed { map (λ c. offsets_of Header.WithSlack (gate_with c)) changes ≡ map (λ c. Err c.why) changes }
    // Ten fields are too many for a header of eight columns.
    ensures long { offsets_of Header.Plain gate_fields ≡ Err OffsetWhy.FieldCount }
    // Eight fields are too few for a header of ten columns.
    ensures short { offsets_of Header.WithSlack (take 8 gate_fields) ≡ Err OffsetWhy.FieldCount }
{}

/// Proves the tables of some files of offsets: of one with a header and three stations (`dock`),
/// and of one with only a header (`none`). Other files have a fault: the number of the first bad
/// row, counted from the header, which is row 1, without blank lines, and the reason.
#[tactic(auto, unfolding(crate::proofs::OnLiterals::table_on_literals))]
pub fn worked_tables()
    ensures dock { table_of dock_file ≡ Ok dock_rows }
    // A file with only a header is a table without stations.
    ensures none { table_of (slack_header ++ codes "\r\n") ≡ Ok [] }
    // A file without a byte has no header.
    ensures empty { table_of [] ≡ Err (OffsetFault.At 1 OffsetWhy.BadHeader) }
    // Nine columns aren't a header.
    ensures nine { table_of (plain_header ++ codes ",flood_add") ≡ Err (OffsetFault.At 1 OffsetWhy.BadHeader) }
    // The first row after the header has seven fields and not eight.
    ensures short { table_of (plain_header ++ codes "\nDock,Pier,0:30,-0:10,1.1,0.9,0.1\n") ≡ Err (OffsetFault.At 2 OffsetWhy.FieldCount) }
    // Row 2 is good, with empty fields, and row 3 is bad; the blank line isn't counted.
    ensures second { table_of (plain_header ++ codes "\n\nDock,Pier,,,,,,\nDock,Pier,,,,,,x\n")
        ≡ Err (OffsetFault.At 3 OffsetWhy.BadNumber) }
{}

/// Proves for some names of stations their reference station and offsets, or why they have none,
/// with a book of one station, the pier, and a table of subordinate stations. The pier is its own
/// reference (`reference`). Indices of stations and rows count from 0.
#[tactic(auto, unfolding(crate::specs::Bases::basis_of, crate::specs::Bases::basis_in, crate::specs::Bases::basis_over))]
pub fn worked_bases()
    ensures reference { basis_of pier_book dock_rows (codes "Pier") ≡ Ok (reference_basis 0) }
    // The dock is the first row of the table, and the pier is its reference.
    ensures dock { basis_of pier_book dock_rows (codes "Dock")
        ≡ Ok (record { station = 0; row = Some 0; high = dock_high; low = dock_low; slack = None }) }
    // Of two rows with the same name the first is used.
    ensures first_row { basis_of pier_book (gate_row ∷ dock_rows ++ gate_row ∷ []) (codes "Gate")
        ≡ Ok (record { station = 0; row = Some 0; high = dock_high; low = dock_low; slack = gate_row.slack }) }
    // The row with index 2 names a reference that isn't in the book.
    ensures no_reference { basis_of pier_book dock_rows (codes "Lost") ≡ Err (FindFault.NoReference 2) }
    // Neither the book nor the table has the name.
    ensures no_station { basis_of pier_book dock_rows (codes "Nobody") ≡ Err FindFault.NoStation }
{}
