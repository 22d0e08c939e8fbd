ghost use Rattle.std.specs.Prelude.{◌≡◌, ℕ, ◌+◌, ◌-◌, ◌*◌, ◌^◌, ◌<◌, ◌≤◌, Bool, true, Ok, IfOk, IfErr, OnOk, length, min, if◌then◌else◌};
ghost use Rattle.std.specs.List.{list_any};
ghost use Rattle.pgs_base.specs.declared.element.NodeId.{NodeId};
ghost use Rattle.pgs_base.specs.declared.element.EdgeId.{EdgeId};
ghost use Rattle.pgs_graph.specs.Changed.{changed, is_sound};
ghost use Rattle.pgs_violation.specs.Staging.{step, after_ops, staged};
ghost use Rattle.pgs_txn.specs.Answers.{Makes, IsRefusal};
ghost use Rattle.pgs_txn.specs.Listing.{MayList, detaches, element_degree, has_degrees_upto, lists_only, may_list_node, may_list_edge};
ghost use Rattle.pgs_txn.specs.Working.{StandsOn, graph_now, Lists};

use crate::edit::Edit;
use crate::faults::{OpFault, StageFault};
use crate::working::Working;
use pgs_base::{Limits, Steps};
use pgs_graph::{Delta, GraphRead, Op, Txn};
use pgs_violation::Structural;
use std::alloc::Global;
use std::marker::Brand;
use std::sync::ledger::{Blank, Ledger};

// Does one operation.
fn do_op<G: GraphRead, L: Ledger>(
    alloc: Global,
    graph: &G,
    working: &mut Working,
    op: &Op,
    steps: &mut Steps<L>,
) -> Result<(), OpFault>
    requires { StandsOn (G.meaning graph.now) working.old }
    ensures step { Makes result (graph_now (G.meaning graph.now) working.new) (step (graph_now (G.meaning graph.now) working.old) op.now) }
    ensures stands { OnOk result (StandsOn (G.meaning graph.now) working.new) }
    ensures lists { OnOk result ((nodes : NodeId → Bool) (edges : EdgeId → Bool) → MayList (G.meaning graph.now) op.now nodes edges →
        Lists nodes edges working.old.rows → Lists nodes edges working.new.rows) }
    ensures no_step_back { steps.old ≤ steps.new }
    ensures looks { steps.new ≤ steps.old + element_degree (G.meaning graph.now) op.now + 3 }
{
    match op {
        Op::AddNode { id, labels, props } => {
            working.add_node(alloc, graph, *id, labels, props, steps)
        }
        Op::AddEdge {
            id,
            source,
            target,
            labels,
            props,
        } => working.add_edge(
            alloc,
            graph,
            *id,
            (*source, *target),
            (labels, props),
            steps,
        ),
        Op::RemoveNode { id } => working.remove_node(graph, *id, steps),
        Op::DetachNode { id } => working.detach_node(graph, *id, steps),
        Op::RemoveEdge { id } => working.remove_edge(graph, *id, steps),
        Op::SetNode { id, key, value } => {
            working.edit_node(alloc, graph, *id, &Edit::Set { key, value }, steps)
        }
        Op::UnsetNode { id, key } => {
            working.edit_node(alloc, graph, *id, &Edit::Unset { key }, steps)
        }
        Op::LabelNode { id, label } => {
            working.edit_node(alloc, graph, *id, &Edit::Label { label }, steps)
        }
        Op::UnlabelNode { id, label } => {
            working.edit_node(alloc, graph, *id, &Edit::Unlabel { label }, steps)
        }
        Op::SetEdge { id, key, value } => {
            working.edit_edge(alloc, graph, *id, &Edit::Set { key, value }, steps)
        }
        Op::UnsetEdge { id, key } => {
            working.edit_edge(alloc, graph, *id, &Edit::Unset { key }, steps)
        }
        Op::LabelEdge { id, label } => {
            working.edit_edge(alloc, graph, *id, &Edit::Label { label }, steps)
        }
        Op::UnlabelEdge { id, label } => {
            working.edit_edge(alloc, graph, *id, &Edit::Unlabel { label }, steps)
        }
    }
}

// Whether an operation detaches a node.
fn is_detach(op: &Op) -> bool
    ensures { result ≡ detaches op.now }
{
    matches!(op, Op::DetachNode { .. })
}

fn has_detach(ops: &[Op]) -> bool
    ensures { result ≡ list_any detaches ops.now }
{
    ops.iter().any(|op| is_detach(op))
}

// How many nodes, and how many edges, operations may change: one each, and all that a graph of so many elements has where they detach a
// node.
fn most_changes(ops: &[Op], elements: u64) -> usize
    ensures { result ≡ if list_any detaches ops.now then min (length ops.now + elements) (2 ^ 64 - 1) else length ops.now }
{
    if has_detach(ops) {
        ops.len().saturating_add(elements as usize)
    } else {
        ops.len()
    }
}

// Does operations one after another, from no changes on.
fn do_ops<G: GraphRead, L: Ledger>(
    alloc: Global,
    graph: &G,
    ops: &[Op],
    steps: &mut Steps<L>,
) -> Result<Working, StageFault>
    ensures done { IfOk result (λ working. after_ops (G.meaning graph.now) 1 ops.now ≡ Ok (graph_now (G.meaning graph.now) working)) }
    ensures refused { IfErr result (λ fault. IsRefusal fault (after_ops (G.meaning graph.now) 1 ops.now)) }
    ensures stands { IfOk result (λ working. StandsOn (G.meaning graph.now) working) }
    ensures lists { IfOk result (λ working. Lists (may_list_node ops.now) (may_list_edge (G.meaning graph.now) ops.now) working.rows) }
    ensures no_step_back { steps.old ≤ steps.new }
    ensures looks { (most : ℕ) → has_degrees_upto (G.meaning graph.now) most ops.now ≡ true → steps.new ≤ steps.old + length ops.now * (most + 3) }
{
    let mut working = Working::new(alloc, graph, most_changes(ops, graph.count()));
    for (index, op) in ops.iter().enumerate() {
        if let Err(fault) = do_op(alloc, graph, &mut working, op, steps) {
            return Err(fault.at(index as u64 + 1));
        }
    }
    Ok(working)
}

/// Does the operations of a transaction on a graph, and gives the delta that they make of it.
///
/// The refusals are those of the definition of staging: 22 where there are more operations than the limit; then, by operation, 23
/// where it can't be done and 38 where its element would be too large; and 24 where the graph after all of them has too many
/// elements. The delta lists only elements that operations name, and edges of nodes that they detach. An element that is added and
/// then removed is listed as removed. At every exit the counter rose by at most `16 * (n + 1) * (s + 2)`, n being the number of
/// operations and s the greatest degree of a node that one of them names as its element.
/// The definition stands in `pgs_violation/specs/Staging.antt`, what a delta may list in `specs/Listing.antt`.
pub fn stage<G: GraphRead, L: Ledger>(
    alloc: Global,
    graph: &G,
    limits: &Limits,
    txn: &Txn,
    steps: &mut Steps<L>,
) -> Result<Delta, StageFault>
    ensures sound { IfOk result (λ delta. is_sound (G.meaning graph.now) delta ≡ true) }
    ensures staged { IfOk result (λ delta. staged limits.now (G.meaning graph.now) txn.now ≡ Ok (changed (G.meaning graph.now) delta)) }
    ensures lists_only { IfOk result (λ delta. lists_only (G.meaning graph.now) txn.now.ops delta ≡ true) }
    ensures refused { IfErr result (λ fault. IsRefusal fault (staged limits.now (G.meaning graph.now) txn.now)) }
    ensures no_step_back { steps.old ≤ steps.new }
    ensures looks { (most : ℕ) → has_degrees_upto (G.meaning graph.now) most txn.now.ops ≡ true →
        steps.new ≤ steps.old + 16 * (length txn.now.ops + 1) * (most + 2) }
{
    let count = txn.ops.len() as u64;
    if count > u64::from(limits.ops) {
        return Err(StageFault::Refused(Structural::TooManyOps { count }));
    }
    let working = do_ops(alloc, graph, txn.ops.as_slice(), steps)?;
    let Working { rows, count, .. } = working;
    if count > limits.elements {
        return Err(StageFault::Refused(Structural::TooManyElements { count }));
    }
    txn.facts();
    Ok(rows.into_delta(alloc)?)
}

// The delta that a transaction makes of a graph, with steps of a counter of its own.
fn delta_counted<G: GraphRead, L: Ledger>(
    alloc: Global,
    graph: &G,
    limits: &Limits,
    txn: &Txn,
    blank: Blank,
) -> Result<Delta, StageFault>
    requires name { blank.name ≡ L.name }
    requires parts { blank.parts ≡ L.parts }
    requires some { 0 < blank.parts }
    ensures sound { IfOk result (λ delta. is_sound (G.meaning graph.now) delta ≡ true) }
    ensures staged { IfOk result (λ delta. staged limits.now (G.meaning graph.now) txn.now ≡ Ok (changed (G.meaning graph.now) delta)) }
    ensures refused { IfErr result (λ fault. IsRefusal fault (staged limits.now (G.meaning graph.now) txn.now)) }
{
    let mut steps: Steps<L> = Steps::begin(blank);
    stage(alloc, graph, limits, txn, &mut steps)
}

/// Does what `stage` does, for a caller that counts no steps: the delta that a transaction makes of a graph, and the same refusals.
pub fn delta_of<G: GraphRead>(
    alloc: Global,
    graph: &G,
    limits: &Limits,
    txn: &Txn,
) -> Result<Delta, StageFault>
    ensures sound { IfOk result (λ delta. is_sound (G.meaning graph.now) delta ≡ true) }
    ensures staged { IfOk result (λ delta. staged limits.now (G.meaning graph.now) txn.now ≡ Ok (changed (G.meaning graph.now) delta)) }
    ensures refused { IfErr result (λ fault. IsRefusal fault (staged limits.now (G.meaning graph.now) txn.now)) }
{
    delta_counted::<G, Brand>(alloc, graph, limits, txn, Blank::new(1))
}
