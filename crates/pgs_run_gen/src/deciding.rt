//! The transactions of a workload, decided one after another by a guard.

ghost use Rattle.std.specs.Prelude.{◌≡◌, ◌+◌, ◌<◌, ◌≤◌, true, false, IfOk, OnOk, if◌then◌else◌};
ghost use Rattle.std.specs.Result.{is_ok};
ghost use Rattle.pgs_base.specs.Graph.{empty_graph};
ghost use Rattle.pgs_violation.specs.Decision.{decide, graph_after};
ghost use Rattle.pgs_violation.specs.Violations.{verdict};
ghost use Rattle.pgs_run_gen.specs.Workload.{decided, graph_left, accepted_of, rejected_of};

use pgs_base::{Memory, Steps};
use pgs_gen::generate;
use pgs_graph::Txn;
use pgs_store::{Guard, GuardRefusal};
use std::alloc::Global;
use std::sync::ledger::Ledger;

// Whether the guard takes a transaction. After `Memory` it is as it was.
fn takes<L: Ledger>(guard: &mut Guard, txn: &Txn, steps: &mut Steps<L>) -> Result<bool, Memory>
    requires { guard.old.commits < 18446744073709551615 }
    ensures taken { IfOk result (λ taken. taken ≡ is_ok (decide guard.old.limits (verdict guard.old.schema) guard.old.graph txn.now)) }
    ensures graph { OnOk result (guard.new.graph
        ≡ graph_after guard.old.graph (decide guard.old.limits (verdict guard.old.schema) guard.old.graph txn.now)) }
    ensures commits { IfOk result (λ taken. guard.new.commits ≡ (if taken then guard.old.commits + 1 else guard.old.commits)) }
    ensures schema { guard.new.schema ≡ guard.old.schema }
    ensures limits { guard.new.limits ≡ guard.old.limits }
{
    match guard.apply(txn, steps) {
        Ok(_) => Ok(true),
        Err(GuardRefusal::Memory) => Err(Memory),
        Err(GuardRefusal::Rejected(_)) => Ok(false),
    }
}

/// Has a new guard decide the transactions of a start with the numbers from 1 to a count: how many it rejected.
pub(crate) fn decide_workload<L: Ledger>(
    alloc: Global,
    guard: &mut Guard,
    start: u64,
    count: u64,
    steps: &mut Steps<L>,
) -> Result<u64, Memory>
    requires few { count ≤ 500000 }
    requires empty { guard.old.graph ≡ empty_graph }
    requires new { guard.old.commits ≡ 0 }
    ensures rejected { IfOk result (λ rejected. rejected ≡ rejected_of (decided guard.old.limits (verdict guard.old.schema) start count)) }
    ensures accepted { OnOk result (guard.new.commits ≡ accepted_of (decided guard.old.limits (verdict guard.old.schema) start count)) }
    ensures graph { OnOk result (guard.new.graph ≡ graph_left (decided guard.old.limits (verdict guard.old.schema) start count)) }
{
    let mut rejected = 0;
    for made in 0..count {
        let txn = generate(alloc, start, made + 1)?;
        if !takes(guard, &txn, steps)? {
            rejected += 1;
        }
    }
    Ok(rejected)
}
