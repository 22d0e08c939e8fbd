//! 25 and 26: nodes and edges that fit no type.

ghost use Rattle.std.specs.Prelude.{◌≡◌, ◌+◌, ◌++◌, ◌≤◌, filter_map, OnOk};
ghost use Rattle.pgs_scratch.specs.Untyped.{untyped_node_at, untyped_edge_at};

use crate::finding::add;
use pgs_base::{EdgeId, Memory, NodeId, Steps};
use pgs_conform::{Compiled, Pair, node_typed};
use pgs_graph::GraphRead;
use pgs_match::is_edge_typed;
use pgs_violation::Violation;
use std::sync::ledger::Ledger;

/// 25 for a node that is there and isn't typed. It takes no memory.
pub(crate) fn untyped_node<G: GraphRead, L: Ledger>(
    graph: &G,
    compiled: &Compiled,
    id: NodeId,
    steps: &mut Steps<L>,
) -> Option<Violation>
    ensures found { result ≡ untyped_node_at compiled.now (G.meaning graph.now) id }
    ensures no_step_back { steps.old ≤ steps.new }
    ensures at_most { steps.new ≤ steps.old + 1 }
{
    let node = graph.node(id, steps)?;
    let own = Pair {
        labels: node.labels,
        props: node.props,
    };
    if node_typed(compiled, &own) {
        None
    } else {
        Some(Violation::UntypedNode { node: id })
    }
}

/// 26 for an edge that is there and isn't typed. It takes no memory.
pub(crate) fn untyped_edge<G: GraphRead, L: Ledger>(
    graph: &G,
    compiled: &Compiled,
    id: EdgeId,
    steps: &mut Steps<L>,
) -> Option<Violation>
    ensures found { result ≡ untyped_edge_at compiled.now (G.meaning graph.now) id }
    ensures no_step_back { steps.old ≤ steps.new }
    ensures at_most { steps.new ≤ steps.old + 3 }
{
    let edge = graph.edge(id, steps)?;
    if is_edge_typed(graph, compiled, edge, steps) {
        None
    } else {
        Some(Violation::UntypedEdge { edge: id })
    }
}

/// Adds 25 for each node of these numbers that is there and isn't typed.
pub(crate) fn add_untyped_nodes<G: GraphRead, L: Ledger>(
    graph: &G,
    compiled: &Compiled,
    nodes: &[NodeId],
    found: &mut Vec<Violation>,
    steps: &mut Steps<L>,
) -> Result<(), Memory>
    ensures nodes { OnOk result (found.new.items
        ≡ found.old.items ++ filter_map (untyped_node_at compiled.now (G.meaning graph.now)) nodes.now) }
    ensures no_step_back { steps.old ≤ steps.new }
{
    for id in nodes {
        let violation = untyped_node(graph, compiled, *id, steps);
        add(found, violation)?;
    }
    Ok(())
}

/// Adds 26 for each edge of these numbers that is there and isn't typed.
pub(crate) fn add_untyped_edges<G: GraphRead, L: Ledger>(
    graph: &G,
    compiled: &Compiled,
    edges: &[EdgeId],
    found: &mut Vec<Violation>,
    steps: &mut Steps<L>,
) -> Result<(), Memory>
    ensures edges { OnOk result (found.new.items
        ≡ found.old.items ++ filter_map (untyped_edge_at compiled.now (G.meaning graph.now)) edges.now) }
    ensures no_step_back { steps.old ≤ steps.new }
{
    for id in edges {
        let violation = untyped_edge(graph, compiled, *id, steps);
        add(found, violation)?;
    }
    Ok(())
}
