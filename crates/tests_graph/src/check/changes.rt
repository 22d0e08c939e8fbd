//! What drawn transactions change. They are on few numbers, so that elements come, change and go again and again.

ghost use Rattle.std.specs.Prelude.{◌≡◌, true, IfOk, IfSome};
ghost use Rattle.pgs_graph.specs.Changed.{is_sound};

use crate::matching::drawn_txn;
use pgs_base::{Limits, Memory, Steps};
use pgs_graph::Delta;
use pgs_tables::Tables;
use pgs_txn::{StageFault, stage};
use std::alloc::Global;
use std::sync::ledger::Ledger;

/// The delta that the transaction of a number makes of a graph, where it can be done.
pub fn delta<L: Ledger>(
    alloc: Global,
    tables: &Tables,
    number: u64,
    steps: &mut Steps<L>,
) -> Result<Option<Delta>, Memory>
    ensures { IfOk result (λ delta. IfSome delta (λ delta. is_sound tables.now.graph delta ≡ true)) }
{
    let txn = drawn_txn(alloc, number)?;
    match stage(alloc, tables, &Limits::standard(), &txn, steps) {
        Ok(delta) => Ok(Some(delta)),
        Err(StageFault::Memory) => Err(Memory),
        Err(StageFault::Refused(_)) => Ok(None),
    }
}
