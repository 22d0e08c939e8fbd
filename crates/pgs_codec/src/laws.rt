//! What the definition of payloads means. The functions do nothing; their contracts are the statements.

ghost use Rattle.std.specs.Prelude.{◌≡◌, ◌<◌, ◌↔◌, ℕ, List, Some, slice_index};
ghost use Rattle.pgs_codec.specs.declared.command.Command.{Command};
ghost use Rattle.pgs_codec.specs.Encodable.{IsPayload};
ghost use Rattle.pgs_codec.specs.Places.{is_schema, is_txn, is_snapshot_within, is_payload_of, is_schema_kind, is_txn_kind, is_snapshot_kind_within, is_payload_of_kind};
ghost use Rattle.pgs_codec.specs.Reading.{decoded};

/// Two commands with one payload are equal: each command is spelled in one way, and no bytes are the payload of two commands.
pub fn one_spelling()
    ensures { (first second : Command) (bytes : List ℕ) → IsPayload first bytes → IsPayload second bytes → first ≡ second }
{}

/// Bytes are decoded to a command exactly where they are its payload.
pub fn decoding_is_exact()
    ensures { (bytes : List ℕ) (command : Command) → ((i : ℕ) → slice_index bytes i < 256) →
        (decoded bytes ≡ Some command) ↔ IsPayload command bytes }
{}

/// Which commands bytes are the payload of is told by their kind: a schema, a transaction, or a snapshot after at most so many
/// commits.
pub fn kind_tells_place()
    ensures schema { (payload : List ℕ) → is_payload_of is_schema payload ≡ is_payload_of_kind is_schema_kind payload }
    ensures txn { (payload : List ℕ) → is_payload_of is_txn payload ≡ is_payload_of_kind is_txn_kind payload }
    ensures snapshot { (most : ℕ) (payload : List ℕ) →
        is_payload_of (is_snapshot_within most) payload ≡ is_payload_of_kind (is_snapshot_kind_within most) payload }
{}
