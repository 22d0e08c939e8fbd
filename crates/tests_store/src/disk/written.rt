//! A store that is made and takes one record, and a checkpoint beside a store, as the calls below the store write them.

ghost use Rattle.std.specs.Prelude.{◌≡◌, ◌∷◌, [], Some};
ghost use Rattle.pgs_codec.specs.Frame.{framed};
ghost use Rattle.pgs_journal.specs.Format.{IsFrames};
ghost use Rattle.pgs_journal.specs.Samples.{schema_payload, snapshot_payload, txn_payload};

use pgs_journal::Journal;
use pgs_snapshot::checkpoint;
use pgs_world::{Area, MemWorld, World};

/// The schema `CREATE GRAPH TYPE g LOOSE {};`, framed as record 1.
const SCHEMA: &[u8] = b"\0\0\0\0\0\0\0\x01\0\0\0\0\0\0\0\x1e\x01CREATE GRAPH TYPE g LOOSE {};\0";

/// The transaction that adds node 1, framed as record 2.
const TXN: &[u8] =
    b"\0\0\0\0\0\0\0\x02\0\0\0\0\0\0\0\x12\x03\0\0\0\x01\x01\0\0\0\0\0\0\0\x01\0\0\0\0\0";

/// The frames of the schema and of a snapshot of node 1 after one commit.
const FRAMES: &[u8] =
    b"\0\0\0\0\0\0\0\x01\0\0\0\0\0\0\0\x1e\x01CREATE GRAPH TYPE g LOOSE {};\x01\0\0\0\0\0\0\0\x02\0\0\0\0\0\0\0\x25\x02\0\0\0\0\0\0\0\x01\0\0\0\0\0\0\0\x01\0\0\0\0\0\0\0\x01\0\0\0\0\0\0\0\0\0\0\0\0\0";

/// Makes a store in area A and appends a record.
fn make<W: World>(world: &mut W, first: &[u8], frame: &[u8]) -> bool
    requires first { IsFrames (schema_payload ∷ []) 2 first.now }
    requires frame { frame.now ≡ framed (Some 2) txn_payload }
{
    match Journal::create(world, Area::A, 1, first, 2) {
        Ok(mut journal) => journal.append(world, frame).is_ok(),
        Err(_) => false,
    }
}

/// Writes the checkpoint of epoch 2 into area B.
fn write<W: World>(world: &mut W, first: &[u8]) -> bool
    requires { IsFrames (schema_payload ∷ snapshot_payload ∷ []) 3 first.now }
{
    checkpoint(world, Area::B, 2, first, 3).is_ok()
}

/// Makes a store of the schema in area A, and appends the transaction.
pub fn make_store(world: &mut MemWorld) -> bool {
    make(world, SCHEMA, TXN)
}

/// Writes the checkpoint of the schema and the node into area B.
pub fn write_checkpoint(world: &mut MemWorld) -> bool {
    write(world, FRAMES)
}
