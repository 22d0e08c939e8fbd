//! How a transaction is decided where its change is, and how a graph is judged from scratch, with its index.

ghost use Rattle.std.specs.Prelude.{◌≡◌, ◌≤◌, true, Ok, IsTrue, IfOk, IfErr, OnOk};
ghost use Rattle.pgs_base.specs.Graph.{element_count};
ghost use Rattle.pgs_check.specs.Standing.{ChangeEachOnce, index_changed};
ghost use Rattle.pgs_codec.specs.declared.command.Command.TheVariants.{Txn as Transaction};
ghost use Rattle.pgs_codec.specs.Encodable.{is_sized};
ghost use Rattle.pgs_decide.specs.Refused.{IsRejected};
ghost use Rattle.pgs_graph.specs.Changed.{changed, is_sound};
ghost use Rattle.pgs_keyindex.specs.Rows.{IsOwned, rows_changed};
ghost use Rattle.pgs_keyindex.specs.Standing.{StandsFor};
ghost use Rattle.pgs_scratch.specs.Judged.{keys_rows};
ghost use Rattle.pgs_violation.specs.Decision.{conforming, decide, judged};
ghost use Rattle.pgs_violation.specs.declared.violation.Verdict.TheVariants.{Conforms};
ghost use Rattle.pgs_violation.specs.Violations.{verdict};
ghost use Rattle.pgs_store.specs.Costs.{TakesWithin};
ghost use Rattle.pgs_store.specs.State.{IsGuarded, IsIndexed};

use crate::GuardRefusal;
use pgs_base::{Limits, List, Memory, Seed, Steps};
use pgs_conform::Compiled;
use pgs_decide::{Decided, decide};
use pgs_graph::{GraphRead, Txn};
use pgs_keyindex::{KeyChange, KeyIndex};
use pgs_schema::Schema;
use pgs_scratch::{Judged, judge};
use pgs_tables::Tables;
use pgs_violation::{Rejection, Structural};
use std::alloc::Global;
use std::sync::ledger::Ledger;

/// Decides a transaction on a guard's graph by its index: what it makes of both, or why it is rejected.
pub(crate) fn decision_of<L: Ledger>(
    alloc: Global,
    schema: &Schema,
    limits: &Limits,
    graph: &Tables,
    index: &KeyIndex,
    txn: &Txn,
    steps: &mut Steps<L>,
) -> Result<Decided, GuardRefusal>
    requires { IsIndexed schema.now.resolved limits.now graph.now.graph index.now }
    ensures sound { IfOk result (λ decided. is_sound graph.now.graph decided.delta ≡ true) }
    ensures guarded { IfOk result (λ decided. IsGuarded schema.now.resolved limits.now (changed graph.now.graph decided.delta)) }
    ensures accepted { IfOk result (λ decided. decide limits.now (verdict schema.now.resolved) graph.now.graph txn.now
        ≡ Ok (changed graph.now.graph decided.delta)) }
    ensures rejected { IfErr result (IsRejected (decide limits.now (verdict schema.now.resolved) graph.now.graph txn.now)) }
    // So it can be journaled.
    ensures sized { OnOk result (IsTrue (is_sized (Transaction txn.now))) }
    // What it makes of the index.
    ensures once { IfOk result (λ decided. ChangeEachOnce decided.changes) }
    ensures owned { IfOk result (λ decided. IsOwned index.now.exclusive (rows_changed index.now.rows decided.changes)) }
    ensures stands { IfOk result (λ decided. StandsFor schema.now.resolved (changed graph.now.graph decided.delta)
        schema.now.resolved.guard.keys (index_changed index.now decided.changes)) }
    ensures no_step_back { steps.old ≤ steps.new }
    ensures cost { TakesWithin schema.now.resolved limits.now graph.now.graph txn.now steps.old steps.new }
{
    let _most = limits.ops;
    decide(
        alloc,
        graph,
        index,
        schema.compiled(),
        schema.keys(),
        limits,
        txn,
        steps,
    )
}

/// The index that stands for a graph that conforms, made of the rows of the scopes of all keys, which are all put in by one change. It is
/// hashed by a seed. `Memory` where none was left.
pub(crate) fn index_of_rows<G: GraphRead>(
    alloc: Global,
    graph: &G,
    compiled: &Compiled,
    seed: Seed,
    rows: List<KeyChange>,
) -> Result<KeyIndex, Memory>
    requires conforms { verdict compiled.now (G.meaning graph.now) ≡ Conforms }
    requires rows { rows ≡ keys_rows compiled.now (G.meaning graph.now) 1 compiled.now.guard.keys }
    ensures stands { IfOk result (StandsFor compiled.now (G.meaning graph.now) compiled.now.guard.keys) }
    ensures seed { IfOk result (λ index. index.seed ≡ seed) }
{
    // The count's clause says that what is read is a graph.
    let _count = graph.count();
    let mut index = KeyIndex::with_seed(alloc, &compiled.resolved().guard.keys, seed)?;
    // The rows of an index ascend.
    index.facts();
    let ready = index.prepare(rows)?;
    index.commit(ready);
    Ok(index)
}

// Judges a graph from scratch, by its first violation. The rows that were judged make the index that stands for it.
fn index_of_graph<G: GraphRead, L: Ledger>(
    alloc: Global,
    graph: &G,
    schema: &Schema,
    seed: Seed,
    steps: &mut Steps<L>,
) -> Result<KeyIndex, GuardRefusal>
    ensures conforms { OnOk result (verdict schema.now.resolved (G.meaning graph.now) ≡ Conforms) }
    ensures stands { IfOk result (StandsFor schema.now.resolved (G.meaning graph.now) schema.now.resolved.guard.keys) }
    ensures seed { IfOk result (λ index. index.seed ≡ seed) }
    ensures rejected { IfErr result (IsRejected (conforming (G.meaning graph.now) (verdict schema.now.resolved (G.meaning graph.now)))) }
    ensures no_step_back { steps.old ≤ steps.new }
{
    let compiled = schema.compiled();
    match judge(alloc, graph, compiled, schema.keys(), steps)? {
        Judged::Conforming(rows) => Ok(index_of_rows(alloc, graph, compiled, seed, rows)?),
        Judged::Violated(violation) => Err(GuardRefusal::Rejected(Rejection::Violation(violation))),
    }
}

/// Judges the graph of tables from scratch: whether it is within the limits, and then whether it conforms. A graph that is both gets the
/// index that stands for it, hashed by a seed.
pub(crate) fn index_of_tables<L: Ledger>(
    alloc: Global,
    graph: &Tables,
    schema: &Schema,
    limits: &Limits,
    seed: Seed,
    steps: &mut Steps<L>,
) -> Result<KeyIndex, GuardRefusal>
    ensures conforms { OnOk result (verdict schema.now.resolved graph.now.graph ≡ Conforms) }
    ensures within { OnOk result (element_count graph.now.graph ≤ limits.now.elements) }
    ensures stands { IfOk result (StandsFor schema.now.resolved graph.now.graph schema.now.resolved.guard.keys) }
    ensures seed { IfOk result (λ index. index.seed ≡ seed) }
    ensures accepted { OnOk result (judged limits.now (verdict schema.now.resolved) graph.now.graph ≡ Ok graph.now.graph) }
    ensures rejected { IfErr result (IsRejected (judged limits.now (verdict schema.now.resolved) graph.now.graph)) }
    ensures no_step_back { steps.old ≤ steps.new }
{
    let count = graph.count();
    if count > limits.elements {
        let structural = Structural::TooManyElements { count };
        return Err(GuardRefusal::Rejected(Rejection::Structural(structural)));
    }
    index_of_graph(alloc, graph, schema, seed, steps)
}
