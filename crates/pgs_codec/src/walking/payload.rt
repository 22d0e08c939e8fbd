ghost use Rattle.std.specs.Prelude.{◌≡◌, true, IfOk, OnErr};
ghost use Rattle.pgs_codec.specs.Places.{kind_of, begins_snapshot};
ghost use Rattle.pgs_codec.specs.Reading.{txn_at, snapshot_at};
ghost use Rattle.pgs_codec.specs.Unread.{Passes, end_of};
ghost use Rattle.pgs_codec.specs.Walking.{kind_behind};

use crate::reader::Reader;
use crate::unread::{Unfit, Unread};
use crate::walking::operation::walk_ops;
use crate::walking::snapshot::walk_snapshot;
use pgs_base::Memory;
use std::alloc::Global;

/// What kind of command bytes are the payload of.
#[derive(Clone, Copy, PartialEq, Eq)]
pub enum PayloadKind {
    /// The text of a schema.
    Schema,
    /// A whole graph.
    Snapshot {
        /// How many transactions were committed before.
        commits: u64,
    },
    /// A transaction.
    Txn,
}

// The operations of a transaction.
#[tactic(auto, using(crate::proofs::Lengths::count_fits, crate::proofs::Walks::named_end), unfolding(crate::specs::Reading::txn_at, crate::specs::Reading::counted_at))]
fn walk_txn(reader: &mut Reader<'_>) -> Result<(), Unfit>
    ensures { Passes result reader.new.rest.now (end_of (txn_at reader.old.rest.now)) }
{
    let count = reader.number32()?;
    walk_ops(reader, count)
}

// The kind of a transaction, from the bytes behind the first.
#[tactic(auto, using(crate::proofs::Walked::no_txn, crate::proofs::Walked::txn_goes_on))]
fn txn_kind(ops: &[u8]) -> Option<PayloadKind>
    ensures { result ≡ kind_behind txn_at ops.now }
{
    let mut reader = Reader::new(ops);
    let Ok(()) = walk_txn(&mut reader) else {
        return None;
    };
    if reader.is_empty() {
        Some(PayloadKind::Txn)
    } else {
        None
    }
}

fn snapshot_kind(alloc: Global, rows: &[u8]) -> Result<Option<PayloadKind>, Memory>
    ensures { IfOk result (λ kind. kind ≡ kind_behind snapshot_at rows.now) }
{
    match walk_snapshot(alloc, rows) {
        Ok(kind) => Ok(Some(kind)),
        Err(Unread::Unfit) => Ok(None),
        Err(Unread::Memory) => Err(Memory),
    }
}

/// The kind of the command that `decode` would find, told without building it. `None` exactly where the bytes are no command's
/// payload. Of a snapshot the numbers of the nodes take memory, as many as the bytes hold; `Memory` where there was none left for
/// them. Nothing else takes any.
#[tactic(auto, unfolding(crate::specs::Reading::decoded, crate::specs::Reading::schema_at))]
pub fn payload_kind(alloc: Global, payload: &[u8]) -> Result<Option<PayloadKind>, Memory>
    // What `decode` would find.
    ensures kind { IfOk result (λ kind. kind ≡ kind_of payload.now) }
    // Only a snapshot takes memory.
    ensures room { OnErr result (begins_snapshot payload.now ≡ true) }
{
    let [first, rest @ ..] = payload else {
        return Ok(None);
    };
    match *first {
        1 => Ok(Some(PayloadKind::Schema)),
        2 => snapshot_kind(alloc, rest),
        3 => Ok(txn_kind(rest)),
        _ => Ok(None),
    }
}
