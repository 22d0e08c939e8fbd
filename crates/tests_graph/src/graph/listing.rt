//! All that the reads of a graph answer, as a text.

use crate::told::Told;
use pgs_base::{EdgeId, Labels, Memory, NodeId, Props, Steps, Value};
use pgs_graph::GraphRead;
use std::alloc::Global;
use std::sync::ledger::Ledger;

/// How many numbers of nodes and of edges are asked for. No node has as many edges.
pub type Range = (u64, u64);

fn tell_carried(labels: &Labels, props: &Props, told: &mut Told) {
    for label in labels.as_slice() {
        told.bytes(" :", label.bytes());
    }
    for (key, value) in props.as_slice() {
        told.bytes(" ", key.bytes());
        match value {
            Value::Int(number) => told.signed("=", *number),
            _ => told.word("=other"),
        }
    }
}

/// The edges out of a node, and those into it.
fn tell_edges_at<G: GraphRead, L: Ledger>(
    graph: &G,
    id: NodeId,
    range: Range,
    told: &mut Told,
    steps: &mut Steps<L>,
) {
    for place in 0..range.1 {
        match graph.out_edge(id, place as usize, steps) {
            Some(edge) => told.number(" >", edge.0),
            None => break,
        }
    }
    for place in 0..range.1 {
        match graph.in_edge(id, place as usize, steps) {
            Some(edge) => told.number(" <", edge.0),
            None => break,
        }
    }
}

fn tell_nodes<G: GraphRead, L: Ledger>(
    graph: &G,
    range: Range,
    told: &mut Told,
    steps: &mut Steps<L>,
) {
    for id in 0..range.0 {
        if let Some(node) = graph.node(NodeId(id), steps) {
            told.number(" n", id);
            tell_carried(node.labels, node.props, told);
        }
        tell_edges_at(graph, NodeId(id), range, told, steps);
    }
}

fn tell_edges<G: GraphRead, L: Ledger>(
    graph: &G,
    range: Range,
    told: &mut Told,
    steps: &mut Steps<L>,
) {
    for id in 0..range.1 {
        if let Some(edge) = graph.edge(EdgeId(id), steps) {
            told.number(" e", id);
            told.number(" ", edge.source.0);
            told.number(" ", edge.target.0);
            tell_carried(edge.labels, edge.props, told);
        }
    }
}

fn tell_ids<G: GraphRead, L: Ledger>(
    alloc: Global,
    graph: &G,
    told: &mut Told,
    steps: &mut Steps<L>,
) -> Result<(), Memory> {
    for id in graph.node_ids(alloc, steps)?.as_slice() {
        told.number(" ", id.0);
    }
    told.word(" |");
    for id in graph.edge_ids(alloc, steps)?.as_slice() {
        told.number(" ", id.0);
    }
    Ok(())
}

/// All numbers and how many they are; each node with what it carries and its edges out and in, each edge with its ends and what it
/// carries; and how often the reads ticked.
fn listing<G: GraphRead, L: Ledger>(
    alloc: Global,
    graph: &G,
    range: Range,
    steps: &mut Steps<L>,
) -> Result<Told, Memory> {
    let mut told = Told::new(alloc);
    let before = steps.shown();
    tell_ids(alloc, graph, &mut told, steps)?;
    told.number(" | ", graph.count());
    told.word(" |");
    tell_nodes(graph, range, &mut told, steps);
    tell_edges(graph, range, &mut told, steps);
    told.number(" | ", steps.shown().saturating_sub(before));
    Ok(told)
}

/// Whether a graph is read as the text says, if one is given.
pub fn is_read<G: GraphRead, L: Ledger>(
    alloc: Global,
    graph: &G,
    range: Range,
    want: Option<&str>,
    steps: &mut Steps<L>,
) -> Result<bool, Memory> {
    match want {
        Some(want) => Ok(listing(alloc, graph, range, steps)?.text()? == want),
        None => Ok(true),
    }
}
