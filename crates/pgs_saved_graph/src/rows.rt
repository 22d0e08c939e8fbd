ghost use Rattle.std.specs.Prelude.{◌≡◌, ◌≤◌, IfOk};
ghost use Rattle.pgs_base.specs.Pair.{pair_of};
ghost use Rattle.pgs_graph.specs.Reads.{edge_row};

use pgs_base::{Copyable, EdgeId, EdgeRow, List, Memory, NodeId, NodeRow, Steps};
use pgs_graph::{EdgeRef, GraphRead, NodeRef};
use std::alloc::Global;
use std::sync::ledger::Ledger;

fn copy_node(alloc: Global, node: &NodeRef<'_>) -> Result<NodeRow, Memory>
    ensures { IfOk result (λ row. row ≡ pair_of node.now.labels.now node.now.props.now) }
{
    let labels = node.labels.copy(alloc)?;
    let props = node.props.copy(alloc)?;
    Ok(NodeRow { labels, props })
}

fn copy_edge(alloc: Global, edge: &EdgeRef<'_>) -> Result<EdgeRow, Memory>
    ensures { IfOk result (λ row. row ≡ edge_row edge.now.source edge.now.target edge.now.labels.now edge.now.props.now) }
{
    let labels = edge.labels.copy(alloc)?;
    let props = edge.props.copy(alloc)?;
    Ok(EdgeRow {
        source: edge.source,
        target: edge.target,
        labels,
        props,
    })
}

/// The nodes of a graph by ascending number, each with a copy of its row. `Memory` where there was none left.
pub fn node_rows<G: GraphRead, L: Ledger>(
    alloc: Global,
    graph: &G,
    steps: &mut Steps<L>,
) -> Result<List<(NodeId, NodeRow)>, Memory>
    ensures rows { IfOk result (λ rows. rows ≡ (G.meaning graph.now).nodes) }
    ensures no_step_back { steps.old ≤ steps.new }
{
    let ids = graph.node_ids(alloc, steps)?;
    let mut rows = Vec::with_capacity(alloc, ids.len())?;
    for id in ids.as_slice() {
        let Some(node) = graph.node(*id, steps) else {
            unreachable!()
        };
        rows.push((*id, copy_node(alloc, &node)?))?;
    }
    Ok(List::from_vec(rows))
}

/// The edges of a graph by ascending number, each with a copy of its row. `Memory` where there was none left.
pub fn edge_rows<G: GraphRead, L: Ledger>(
    alloc: Global,
    graph: &G,
    steps: &mut Steps<L>,
) -> Result<List<(EdgeId, EdgeRow)>, Memory>
    ensures rows { IfOk result (λ rows. rows ≡ (G.meaning graph.now).edges) }
    ensures no_step_back { steps.old ≤ steps.new }
{
    let ids = graph.edge_ids(alloc, steps)?;
    let mut rows = Vec::with_capacity(alloc, ids.len())?;
    for id in ids.as_slice() {
        let Some(edge) = graph.edge(*id, steps) else {
            unreachable!()
        };
        rows.push((*id, copy_edge(alloc, &edge)?))?;
    }
    Ok(List::from_vec(rows))
}
