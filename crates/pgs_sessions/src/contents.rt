//! What a graph holds of elements, and which a delta leaves otherwise.

ghost use Rattle.std.specs.Prelude.{◌≡◌, ◌+◌, ◌++◌, ◌≤◌, true, length, IfOk, OnOk};
ghost use Rattle.std.specs.Option.{option_map_or};
ghost use Rattle.pgs_base.specs.Graph.{is_graph};
ghost use Rattle.pgs_base.specs.Pair.{pair_of};
ghost use Rattle.pgs_graph.specs.Reads.{edge_row};
ghost use Rattle.pgs_sessions.specs.Differing.{node_content, edge_content, differing_nodes, differing_edges, differing};
ghost use Rattle.pgs_sessions_machine.specs.declared.event.Content.TheVariants.{Absent, Node, Edge};
ghost use Rattle.pgs_sessions_machine.specs.Content.{content_of, is_same_content};

use pgs_base::{Copyable, EdgeId, EdgeRow, Elem, Memory, NodeId, NodeRow, Steps};
use pgs_graph::{Delta, EdgeRef, GraphRead, NodeRef};
use pgs_sessions_machine::Content;
use pgs_tables::Tables;
use std::alloc::Global;
use std::sync::ledger::Ledger;

fn copied_node(alloc: Global, node: NodeRef<'_>) -> Result<Content, Memory>
    ensures { IfOk result (λ content. content ≡ Node (pair_of node.entry.labels.now node.entry.props.now)) }
{
    let labels = node.labels.copy(alloc)?;
    let props = node.props.copy(alloc)?;
    Ok(Content::Node(NodeRow { labels, props }))
}

fn copied_edge(alloc: Global, edge: EdgeRef<'_>) -> Result<Content, Memory>
    ensures { IfOk result (λ content. content ≡ Edge (edge_row edge.entry.source edge.entry.target edge.entry.labels.now edge.entry.props.now)) }
{
    let labels = edge.labels.copy(alloc)?;
    let props = edge.props.copy(alloc)?;
    Ok(Content::Edge(EdgeRow {
        source: edge.source,
        target: edge.target,
        labels,
        props,
    }))
}

/// What an element is in a graph, by one look-up.
pub(crate) fn content_of<L: Ledger>(
    alloc: Global,
    graph: &Tables,
    elem: Elem,
    steps: &mut Steps<L>,
) -> Result<Content, Memory>
    ensures content { IfOk result (λ content. content ≡ content_of graph.now.graph elem) }
    ensures no_step_back { steps.old ≤ steps.new }
    ensures one_look { steps.new ≤ steps.old + 1 }
{
    match elem {
        Elem::Node(id) => match graph.node(id, steps) {
            Some(node) => copied_node(alloc, node),
            None => Ok(Content::Absent),
        },
        Elem::Edge(id) => match graph.edge(id, steps) {
            Some(edge) => copied_edge(alloc, edge),
            None => Ok(Content::Absent),
        },
    }
}

fn is_same_node(old: Option<NodeRef<'_>>, new: &Option<NodeRow>) -> bool
    ensures { result ≡ is_same_content (option_map_or (λ node. Node (pair_of node.labels.now node.props.now)) old.entry Absent) (node_content new.now) }
{
    match (old, new) {
        (Some(old), Some(new)) => *old.labels == new.labels && *old.props == new.props,
        (None, None) => true,
        _ => false,
    }
}

fn is_same_edge(old: Option<EdgeRef<'_>>, new: &Option<EdgeRow>) -> bool
    ensures { result ≡ is_same_content (option_map_or (λ edge. Edge (edge_row edge.source edge.target edge.labels.now edge.props.now)) old.entry Absent)
        (edge_content new.now) }
{
    match (old, new) {
        (Some(old), Some(new)) => {
            old.source == new.source
                && old.target == new.target
                && *old.labels == new.labels
                && *old.props == new.props
        }
        (None, None) => true,
        _ => false,
    }
}

// Lists the nodes that their rows leave otherwise.
fn list_nodes<L: Ledger>(
    elems: &mut Vec<Elem>,
    graph: &Tables,
    nodes: &[(NodeId, Option<NodeRow>)],
    steps: &mut Steps<L>,
) -> Result<(), Memory>
    ensures listed { OnOk result (elems.new.items ≡ elems.old.items ++ differing_nodes graph.now.graph nodes.now) }
    ensures no_step_back { steps.old ≤ steps.new }
    ensures looks { steps.new ≤ steps.old + length nodes.now }
{
    for (id, row) in nodes {
        if !is_same_node(graph.node(*id, steps), row) {
            elems.push(Elem::Node(*id))?;
        }
    }
    Ok(())
}

// Lists the edges that their rows leave otherwise.
fn list_edges<L: Ledger>(
    elems: &mut Vec<Elem>,
    graph: &Tables,
    edges: &[(EdgeId, Option<EdgeRow>)],
    steps: &mut Steps<L>,
) -> Result<(), Memory>
    ensures listed { OnOk result (elems.new.items ≡ elems.old.items ++ differing_edges graph.now.graph edges.now) }
    ensures no_step_back { steps.old ≤ steps.new }
    ensures looks { steps.new ≤ steps.old + length edges.now }
{
    for (id, row) in edges {
        if !is_same_edge(graph.edge(*id, steps), row) {
            elems.push(Elem::Edge(*id))?;
        }
    }
    Ok(())
}

/// The elements that a delta leaves otherwise than they are in a graph, by one look-up for each of its rows.
pub(crate) fn differing<L: Ledger>(
    alloc: Global,
    graph: &Tables,
    delta: &Delta,
    steps: &mut Steps<L>,
) -> Result<Vec<Elem>, Memory>
    ensures elems { IfOk result (λ elems. elems.items ≡ differing graph.now.graph delta.now) }
    ensures graph { is_graph graph.now.graph ≡ true }
    ensures no_step_back { steps.old ≤ steps.new }
    ensures looks { steps.new ≤ steps.old + (length delta.now.nodes + length delta.now.edges) }
{
    let _count = graph.count();
    let mut elems = Vec::new(alloc);
    list_nodes(&mut elems, graph, delta.nodes.as_slice(), steps)?;
    list_edges(&mut elems, graph, delta.edges.as_slice(), steps)?;
    Ok(elems)
}
