//! What the definition of an area says of areas written out byte by byte (`specs/Samples.antt`). The functions do nothing;
//! their contracts are the statements.

ghost use Rattle.std.specs.Prelude.{◌≡◌, ◌∷◌, [], length, take, Some, None};
ghost use Rattle.pgs_journal.specs.Area.{area_state};
ghost use Rattle.pgs_journal.specs.Format.{opened};
ghost use Rattle.pgs_journal.specs.Samples.{schema_payload, txn_payload, snapshot_payload, loaded, applied, checkpointed, with_two_schemas, second_loaded, second_applied, second_checkpointed, evolved, another_program};
ghost use Rattle.pgs_journal.specs.declared.format.Format.TheVariants.{First, Second};
ghost use Rattle.pgs_journal.specs.declared.area_state.AreaState.TheVariants as areas;

/// Areas that are no store of this program.
pub fn others()
    ensures empty { area_state [] ≡ areas.NoStore }
    ensures one_byte { area_state (1 ∷ []) ≡ areas.NoStore }
    ensures closed { area_state (0 ∷ another_program) ≡ areas.NoStore }
    ensures foreign { area_state another_program ≡ areas.Foreign }
    ensures sixteen_bytes { area_state (take 16 another_program) ≡ areas.NoStore }
    ensures epoch_zero { area_state (checkpointed 0) ≡ areas.Foreign }
{}

/// Stores of the first format.
pub fn stores()
    ensures bytes { length loaded ≡ 56 }
    ensures spelled { take 55 loaded ≡ opened First 1 (schema_payload ∷ []) }
    ensures loaded_read { area_state loaded ≡ areas.Store 1 55 None (schema_payload ∷ []) }
    ensures applied_bytes { length (applied 1) ≡ 83 }
    ensures applied_read { area_state (applied 1) ≡ areas.Store 1 82 None (schema_payload ∷ txn_payload ∷ []) }
    ensures not_committed { area_state (applied 0) ≡ areas.Store 1 55 None (schema_payload ∷ []) }
    ensures seven_is_closed { area_state (applied 7) ≡ areas.Store 1 55 None (schema_payload ∷ []) }
    ensures checkpointed_bytes { length (checkpointed 2) ≡ 102 }
    ensures checkpointed_read { area_state (checkpointed 2) ≡ areas.Store 2 101 None (schema_payload ∷ snapshot_payload ∷ []) }
{}

/// Stores of the second format.
pub fn second_stores()
    ensures bytes { length second_loaded ≡ 64 }
    ensures spelled { take 63 second_loaded ≡ opened Second 1 (schema_payload ∷ []) }
    ensures loaded_read { area_state second_loaded ≡ areas.Store 1 63 (Some 2) (schema_payload ∷ []) }
    ensures applied_bytes { length (second_applied 1 2) ≡ 99 }
    ensures applied_read { area_state (second_applied 1 2) ≡ areas.Store 1 98 (Some 3) (schema_payload ∷ txn_payload ∷ []) }
    ensures not_committed { area_state (second_applied 0 2) ≡ areas.Store 1 63 (Some 2) (schema_payload ∷ []) }
    ensures checkpointed_bytes { length (second_checkpointed 2) ≡ 118 }
    ensures checkpointed_read { area_state (second_checkpointed 2) ≡ areas.Store 2 117 (Some 3) (schema_payload ∷ snapshot_payload ∷ []) }
    ensures evolved_read { area_state evolved ≡ areas.Store 1 110 (Some 3) (schema_payload ∷ schema_payload ∷ []) }
{}

/// Damaged stores.
pub fn damaged()
    ensures cut_short { area_state (take 70 (applied 1)) ≡ areas.Damaged 1 2 }
    ensures no_gate_behind { area_state (take 82 (applied 1)) ≡ areas.Damaged 1 2 }
    ensures no_record { area_state (take 17 (applied 0)) ≡ areas.Damaged 1 1 }
    ensures too_many_commits { area_state (checkpointed 1) ≡ areas.Damaged 1 2 }
    ensures later_schema { area_state with_two_schemas ≡ areas.Damaged 1 2 }
    ensures second_cut_short { area_state (take 80 (second_applied 1 2)) ≡ areas.Damaged 1 2 }
    ensures another_number { area_state (second_applied 1 3) ≡ areas.Damaged 1 2 }
{}
