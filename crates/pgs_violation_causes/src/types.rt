//! The causes of an element that fits no type.

ghost use Rattle.std.specs.Prelude.{◌≡◌, ◌≤◌, Some, IfOk};
ghost use Rattle.pgs_base.specs.Graph.{node_at};
ghost use Rattle.pgs_base.specs.Pair.{pair_of};
ghost use Rattle.pgs_conform.specs.Shapes.{triple_of};
ghost use Rattle.pgs_graph.specs.Reads.{edge_row};
ghost use Rattle.pgs_syntax.specs.Typed.{triple_at};
ghost use Rattle.pgs_violation_causes.specs.Types.{AreEdgeCauses, AreNodeCauses, triple_of_edge};

use crate::texts::nearest_texts;
use pgs_base::{Bytes, EdgeId, List, Memory, NodeId, Steps};
use pgs_conform::{Compiled, Pair};
use pgs_differences::{nearest_edge_types, nearest_node_types};
use pgs_graph::{EdgeRef, GraphRead, NodeRef};
use std::alloc::Global;
use std::sync::ledger::Ledger;

// What a node carries, as a pair.
fn pair_of(node: NodeRef<'_>) -> Pair<'_>
    ensures { result ≡ pair_of node.entry.labels.now node.entry.props.now }
{
    Pair {
        labels: node.labels,
        props: node.props,
    }
}

// The causes of a pair of a node.
fn pair_causes(alloc: Global, compiled: &Compiled, own: &Pair<'_>) -> Result<List<Bytes>, Memory>
    ensures { IfOk result (AreNodeCauses compiled.now (Some own.now)) }
{
    let nears = nearest_node_types(alloc, compiled, own)?;
    let none = b"the guard has no node type that anything fits";
    nearest_texts(alloc, compiled.resolved(), none, nears.as_slice())
}

// The causes of the pairs of an edge's source, of itself and of its target.
fn triple_causes(
    alloc: Global,
    compiled: &Compiled,
    source: &Pair<'_>,
    own: &Pair<'_>,
    target: &Pair<'_>,
) -> Result<List<Bytes>, Memory>
    ensures { IfOk result (AreEdgeCauses compiled.now (Some (triple_of source.now own.now target.now))) }
{
    let nears = nearest_edge_types(alloc, compiled, source, own, target)?;
    let none = b"the guard has no edge type that anything fits";
    nearest_texts(alloc, compiled.resolved(), none, nears.as_slice())
}

/// The causes of a node that fits no type; none where the graph hasn't it.
pub(crate) fn node_causes<G: GraphRead, L: Ledger>(
    alloc: Global,
    graph: &G,
    compiled: &Compiled,
    id: NodeId,
    steps: &mut Steps<L>,
) -> Result<List<Bytes>, Memory>
    ensures causes { IfOk result (AreNodeCauses compiled.now (node_at (G.meaning graph.now) id)) }
    ensures no_step_back { steps.old ≤ steps.new }
{
    match graph.node(id, steps) {
        Some(node) => pair_causes(alloc, compiled, &pair_of(node)),
        None => Ok(List::new(alloc)),
    }
}

// The causes of an edge by its ends in the graph; none where one of them isn't there.
fn row_causes<G: GraphRead, L: Ledger>(
    alloc: Global,
    graph: &G,
    compiled: &Compiled,
    edge: EdgeRef<'_>,
    steps: &mut Steps<L>,
) -> Result<List<Bytes>, Memory>
    ensures causes { IfOk result (AreEdgeCauses compiled.now (triple_at (G.meaning graph.now)
        (edge_row edge.entry.source edge.entry.target edge.entry.labels.now edge.entry.props.now))) }
    ensures no_step_back { steps.old ≤ steps.new }
{
    let Some(source) = graph.node(edge.source, steps) else {
        return Ok(List::new(alloc));
    };
    let Some(target) = graph.node(edge.target, steps) else {
        return Ok(List::new(alloc));
    };
    let own = Pair {
        labels: edge.labels,
        props: edge.props,
    };
    triple_causes(alloc, compiled, &pair_of(source), &own, &pair_of(target))
}

/// The causes of an edge that fits no type; none where the graph hasn't it.
pub(crate) fn edge_causes<G: GraphRead, L: Ledger>(
    alloc: Global,
    graph: &G,
    compiled: &Compiled,
    id: EdgeId,
    steps: &mut Steps<L>,
) -> Result<List<Bytes>, Memory>
    ensures causes { IfOk result (AreEdgeCauses compiled.now (triple_of_edge (G.meaning graph.now) id)) }
    ensures no_step_back { steps.old ≤ steps.new }
{
    match graph.edge(id, steps) {
        Some(edge) => row_causes(alloc, graph, compiled, edge, steps),
        None => Ok(List::new(alloc)),
    }
}
