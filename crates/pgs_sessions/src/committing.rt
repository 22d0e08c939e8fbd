//! What a session staged, as one transaction.

ghost use Rattle.std.specs.Prelude.{◌≡◌, ◌≤◌, ◌<◌};
ghost use Rattle.pgs_sessions.specs.Committing.{Decides};
ghost use Rattle.pgs_sessions.specs.Costs.{IsWithinTwice};

use crate::changes::Changes;
use crate::contents::differing;
use pgs_base::{Limits, Memory, Steps};
use pgs_graph::Txn;
use pgs_sessions_machine::Reply;
use pgs_store::{Guard, GuardRefusal};
use pgs_txn::{StageFault, stage};
use pgs_violation::Rejection;
use std::alloc::Global;
use std::sync::ledger::Ledger;

/// Decides a transaction by a guard, and does it where it is accepted: each element that differs then has the commit's number. All that
/// takes memory comes before the guard decides: after `Memory` the guard and the numbers are as they were. It stages twice, and so takes at
/// most twice the look-ups that the guard may.
pub(crate) fn decide<L: Ledger>(
    alloc: Global,
    guard: &mut Guard,
    limits: &Limits,
    changes: &mut Changes,
    txn: &Txn,
    steps: &mut Steps<L>,
) -> Result<Reply, Memory>
    requires counted { guard.old.commits < 18446744073709551615 }
    requires limits { guard.old.limits ≡ limits.now }
    ensures decision { Decides result guard.old guard.new changes.old changes.new txn.now }
    ensures no_step_back { steps.old ≤ steps.new }
    ensures cost { IsWithinTwice guard.old txn.now steps.old steps.new }
{
    let delta = match stage(alloc, guard.graph(), limits, txn, steps) {
        Ok(delta) => delta,
        Err(StageFault::Memory) => return Err(Memory),
        Err(StageFault::Refused(structural)) => {
            return Ok(Reply::Rejected(Rejection::Structural(structural)));
        }
    };
    let elems = differing(alloc, guard.graph(), &delta, steps)?;
    changes.make_room_for(elems.as_slice())?;
    match guard.apply(txn, steps) {
        Ok(commit) => {
            changes.set_all(elems, commit);
            Ok(Reply::Committed(commit))
        }
        Err(GuardRefusal::Memory) => Err(Memory),
        Err(GuardRefusal::Rejected(rejection)) => {
            changes.tidy();
            Ok(Reply::Rejected(rejection))
        }
    }
}
