//! Computed examples of definitions that contracts use.

ghost use Rattle.std.specs.Prelude.{◌≡◌, ◌-◌, ◌^◌, true, false, [], ◌∷◌, Some, None, Ok, Err};
ghost use Rattle.tide_edge.specs.FaultSchedule.{is_to_fail};
ghost use Rattle.tide_edge.specs.Doors.{listen_requested, after_next, append_to_last, left_after};
ghost use Rattle.tide_edge.specs.Faults.{counted, Rose};
ghost use Rattle.tide_edge.specs.Memory.{Open, Read, files_now, files_state, folder_of, read_result, is_refused, write_count};
ghost use Rattle.tide_edge.specs.Whole.{whole};
ghost use Rattle.tide_edge.specs.declared.files.piece.TheConstants.{PIECE};

use crate::files::ReadAllFault;

/// Proves computed examples: which contents are read whole within a limit, how counts of failures
/// grow and saturate, which calls on objects in memory fail, and what `open`, `read`, `write` and
/// `next` change.
pub fn sample_states()
    ensures piece { PIECE ≡ 65536 }
    ensures fits { whole 3 (Some (7 ∷ 8 ∷ 9 ∷ [])) ≡ Ok (7 ∷ 8 ∷ 9 ∷ []) }
    ensures too_long { whole 2 (Some (7 ∷ 8 ∷ 9 ∷ [])) ≡ Err ReadAllFault.TooLong }
    ensures absent { whole 2 None ≡ Err ReadAllFault.Failed }

    ensures rose { Rose 4 5 }
    ensures unchanged { ¬ (Rose 4 4) }
    ensures at_last { Rose (2 ^ 64 - 1) (2 ^ 64 - 1) }
    ensures rose_to_last { Rose (2 ^ 64 - 2) (2 ^ 64 - 1) }
    ensures one_more { counted (2 ^ 64 - 2) ≡ 2 ^ 64 - 1 }
    ensures stays { counted (2 ^ 64 - 1) ≡ 2 ^ 64 - 1 }

    ensures second_call { is_to_fail (record { fails = 2 ∷ []; made = 1; faults = 0 }) ≡ true }
    ensures first_call { is_to_fail (record { fails = 2 ∷ []; made = 0; faults = 0 }) ≡ false }
    ensures first_of_a_name { folder_of (record { name = 97 ∷ []; bytes = 1 ∷ [] }
        ∷ record { name = 97 ∷ []; bytes = 2 ∷ [] } ∷ []) (97 ∷ []) ≡ Some (1 ∷ []) }
    ensures small_room { read_result (files_now (record {
      files = record { name = 97 ∷ []; bytes = 7 ∷ 8 ∷ [] } ∷ [];
      fails = [];
      history = Open (97 ∷ []) ∷ [];
    })) 1 ≡ Ok 1 }
    ensures small_rest { read_result (files_now (record {
      files = record { name = 97 ∷ []; bytes = 7 ∷ 8 ∷ [] } ∷ [];
      fails = [];
      history = Open (97 ∷ []) ∷ [];
    })) 9 ≡ Ok 2 }
    ensures file_ended { (files_state (record {
      files = record { name = 97 ∷ []; bytes = 7 ∷ 8 ∷ [] } ∷ [];
      fails = 3 ∷ [];
      history = Open (97 ∷ []) ∷ Read 8 ∷ Read 8 ∷ Read 8 ∷ [];
    })).open_log.latest
        ≡ Some (record { name = 97 ∷ []; is_open = true; bytes = 7 ∷ 8 ∷ []; ends = 1; read_failed = true }) }
    ensures nearly_full { write_count (record {
      accepted = 7 ∷ 8 ∷ [];
      most = 2;
      capacity = 3;
      fault_schedule = record { fails = []; made = 0; faults = 0 };
    }) 9 ≡ 1 }
    ensures full { is_refused (record {
      accepted = 7 ∷ 8 ∷ [];
      most = 2;
      capacity = 2;
      fault_schedule = record { fails = []; made = 0; faults = 0 };
    }) ≡ true }

    ensures next_counts { (after_next (Ok true) (record (listen_requested 80 true) { accepted = 2 ^ 64 - 2 })).accepted ≡ 2 ^ 64 - 1 }
    ensures count_stays { (after_next (Ok true) (record (listen_requested 80 true) { accepted = 2 ^ 64 - 1 })).accepted ≡ 2 ^ 64 - 1 }
    ensures no_more { (after_next (Ok false) (listen_requested 80 true)).is_over ≡ true }
    ensures to_the_last { append_to_last ((1 ∷ []) ∷ (2 ∷ []) ∷ []) (3 ∷ []) ≡ (1 ∷ []) ∷ (2 ∷ 3 ∷ []) ∷ [] }
    ensures piece_read { left_after 2 ((7 ∷ 8 ∷ []) ∷ (9 ∷ []) ∷ []) ≡ (9 ∷ []) ∷ [] }
    ensures piece_begun { left_after 1 ((7 ∷ 8 ∷ []) ∷ (9 ∷ []) ∷ []) ≡ (8 ∷ []) ∷ (9 ∷ []) ∷ [] }
    ensures second_begun { left_after 3 ((7 ∷ 8 ∷ []) ∷ (9 ∷ 10 ∷ []) ∷ []) ≡ (10 ∷ []) ∷ [] }
{}
