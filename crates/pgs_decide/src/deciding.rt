ghost use Rattle.std.specs.Prelude.{◌≡◌, ◌+◌, ◌*◌, ◌^◌, ◌≤◌, ℕ, true, length, Ok, IfErr, IfOk, OnOk};
ghost use Rattle.pgs_base.specs.Graph.{Graph};
ghost use Rattle.pgs_graph.specs.Changed.{changed, is_sound};
ghost use Rattle.pgs_violation.specs.declared.violation.Verdict.{Verdict};
ghost use Rattle.pgs_violation.specs.Decision.{conforming, decide};
ghost use Rattle.pgs_violation.specs.Staging.{staged};
ghost use Rattle.pgs_violation.specs.Violations.{conforms, verdict};
ghost use Rattle.pgs_txn.specs.Listing.{has_degrees_upto, lists_only};
ghost use Rattle.pgs_overlay.specs.Standing.{row_count};
ghost use Rattle.pgs_check_affected.specs.Changes.{elems_of};
ghost use Rattle.pgs_check_affected.specs.Touched.{AreSparse, touched};
ghost use Rattle.pgs_keyindex.specs.Rows.{IsOwned, rows_changed};
ghost use Rattle.pgs_keyindex.specs.Standing.{StandsFor};
ghost use Rattle.pgs_check.specs.Costs.{HaveEdgesWithin};
ghost use Rattle.pgs_check.specs.Standing.{ChangeEachOnce, index_changed};
ghost use Rattle.pgs_decide.specs.Refused.{IsRejected};
ghost use Rattle.pgs_decide.specs.Touched.{guarding_count, staged_after, touched_by};

use crate::GuardRefusal;
use pgs_base::{Limits, List, Steps};
use pgs_check::{CheckFault, check};
use pgs_conform::Compiled;
use pgs_graph::{Delta, GraphRead, Txn};
use pgs_keyindex::{KeyChange, KeyIndex};
use pgs_match::PlannedKey;
use pgs_overlay::Overlay;
use pgs_tables::Tables;
use pgs_txn::{StageFault, stage};
use pgs_violation::Rejection;
use std::alloc::Global;
use std::sync::ledger::Ledger;

/// What an accepted transaction makes of the graph, and of the index that stands for it.
#[derive(Drop)]
pub struct Decided {
    /// The delta of the graph.
    pub delta: Delta,
    /// The changes of the index.
    pub changes: List<KeyChange>,
}

// Stages a transaction: the delta that it makes of a graph.
fn staged_delta<L: Ledger>(
    alloc: Global,
    graph: &Tables,
    limits: &Limits,
    txn: &Txn,
    steps: &mut Steps<L>,
) -> Result<Delta, GuardRefusal>
    ensures sound { IfOk result (λ delta. is_sound graph.now.graph delta ≡ true) }
    ensures staged { IfOk result (λ delta. staged limits.now graph.now.graph txn.now ≡ Ok (changed graph.now.graph delta)) }
    ensures lists_only { IfOk result (λ delta. lists_only graph.now.graph txn.now.ops delta ≡ true) }
    ensures rejected { (judge : Graph → Verdict) → IfErr result (IsRejected (decide limits.now judge graph.now.graph txn.now)) }
    ensures no_step_back { steps.old ≤ steps.new }
    ensures cost { (most : ℕ) → has_degrees_upto graph.now.graph most txn.now.ops ≡ true →
        steps.new ≤ steps.old + 16 * (length txn.now.ops + 1) * (most + 2) }
{
    match stage(alloc, graph, limits, txn, steps) {
        Ok(delta) => Ok(delta),
        Err(StageFault::Memory) => Err(GuardRefusal::Memory),
        Err(StageFault::Refused(structural)) => {
            Err(GuardRefusal::Rejected(Rejection::Structural(structural)))
        }
    }
}

// Sees a sound delta as a pending change of a graph that conforms, and checks it: the changes of the index.
fn checked_changes<L: Ledger>(
    alloc: Global,
    graph: &Tables,
    index: &KeyIndex,
    compiled: &Compiled,
    keys: &List<PlannedKey>,
    delta: &Delta,
    steps: &mut Steps<L>,
) -> Result<List<KeyChange>, GuardRefusal>
    requires sound { is_sound graph.now.graph delta.now ≡ true }
    requires conforms { conforms compiled.now graph.now.graph ≡ true }
    requires index { StandsFor compiled.now graph.now.graph compiled.now.guard.keys index.now }
    requires keys { keys.now ≡ compiled.now.guard.keys }
    ensures conforms { OnOk result (conforms compiled.now (changed graph.now.graph delta.now) ≡ true) }
    ensures rejected { IfErr result (IsRejected (conforming (changed graph.now.graph delta.now)
        (verdict compiled.now (changed graph.now.graph delta.now)))) }
    ensures once { IfOk result ChangeEachOnce }
    ensures owned { IfOk result (λ changes. IsOwned index.now.exclusive (rows_changed index.now.rows changes)) }
    ensures stands { IfOk result (λ changes. StandsFor compiled.now (changed graph.now.graph delta.now) compiled.now.guard.keys
        (index_changed index.now changes)) }
    ensures no_step_back { steps.old ≤ steps.new }
    ensures cost { (edges most : ℕ) → HaveEdgesWithin keys.now edges →
        AreSparse graph.now.graph (changed graph.now.graph delta.now) (2 * edges) (touched graph.now.graph (elems_of delta.now)) most →
        steps.new ≤ steps.old + (16 * (row_count delta.now + 1) * (most + 2)
        + 3072 * (length keys.now + 1) * (length (touched graph.now.graph (elems_of delta.now)) + 1) * (most + 2) ^ (2 * edges + 2)) }
{
    // The count's clause says that what is read is a graph.
    let _count = graph.count();
    let overlay = Overlay::new(alloc, graph, delta, steps)?;
    match check(alloc, graph, index, compiled, keys, &overlay, delta, steps) {
        Ok(changes) => Ok(changes),
        Err(CheckFault::Memory) => Err(GuardRefusal::Memory),
        Err(CheckFault::Violated(violation)) => {
            Err(GuardRefusal::Rejected(Rejection::Violation(violation)))
        }
    }
}

/// Decides a transaction on a graph in tables: the delta that it makes of it, and the changes that make the index that of the changed
/// graph. It asks that the graph conforms, that the index stands for it, and that `keys` are the plans of all keys of the guard, in order.
///
/// `Rejected` exactly with the rejection of `decide` of `pgs_violation`, by the schema's verdict; `Memory` where none was left. Nothing
/// is changed. The changes are as `KeyIndex::prepare` asks.
///
/// Let q be the number of the guard's types and keys, t the number of operations and of what they touch together, and let no node within
/// twice w edges of what they touch, over the edges of the graph before and after together, have more than d edges in either, where no
/// pattern of the keys has more than w edge variables. Then it takes at most 4096 * (q + 1) * (t + 1) * (d + 2)^(2w + 2) look-ups, at every
/// exit.
pub fn decide<L: Ledger>(
    alloc: Global,
    graph: &Tables,
    index: &KeyIndex,
    compiled: &Compiled,
    keys: &List<PlannedKey>,
    limits: &Limits,
    txn: &Txn,
    steps: &mut Steps<L>,
) -> Result<Decided, GuardRefusal>
    requires conforms { conforms compiled.now graph.now.graph ≡ true }
    requires index { StandsFor compiled.now graph.now.graph compiled.now.guard.keys index.now }
    requires keys { keys.now ≡ compiled.now.guard.keys }
    ensures sound { IfOk result (λ decided. is_sound graph.now.graph decided.delta ≡ true) }
    ensures conforms { IfOk result (λ decided. conforms compiled.now (changed graph.now.graph decided.delta) ≡ true) }
    ensures accepted { IfOk result (λ decided. decide limits.now (verdict compiled.now) graph.now.graph txn.now ≡ Ok (changed graph.now.graph decided.delta)) }
    ensures rejected { IfErr result (IsRejected (decide limits.now (verdict compiled.now) graph.now.graph txn.now)) }
    ensures once { IfOk result (λ decided. ChangeEachOnce decided.changes) }
    ensures owned { IfOk result (λ decided. IsOwned index.now.exclusive (rows_changed index.now.rows decided.changes)) }
    ensures stands { IfOk result (λ decided. StandsFor compiled.now (changed graph.now.graph decided.delta) compiled.now.guard.keys
        (index_changed index.now decided.changes)) }
    ensures no_step_back { steps.old ≤ steps.new }
    ensures cost { (edges most : ℕ) → HaveEdgesWithin keys.now edges →
        AreSparse graph.now.graph (staged_after limits.now graph.now.graph txn.now) (2 * edges) (touched_by graph.now.graph txn.now.ops) most →
        steps.new ≤ steps.old + 4096 * (guarding_count compiled.now + 1)
        * (length txn.now.ops + length (touched_by graph.now.graph txn.now.ops) + 1) * (most + 2) ^ (2 * edges + 2) }
{
    // The count's clause says that what is read is a graph.
    let _count = graph.count();
    let delta = staged_delta(alloc, graph, limits, txn, steps)?;
    let changes = checked_changes(alloc, graph, index, compiled, keys, &delta, steps)?;
    Ok(Decided { delta, changes })
}
