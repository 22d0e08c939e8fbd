//! What several searches read of a graph.

ghost use Rattle.std.specs.Prelude.{◌≡◌, ◌+◌, ◌≤◌, cond, slice_get};
ghost use Rattle.pgs_base.specs.Pair.{pair_of};
ghost use Rattle.pgs_graph.specs.Reads.{edge_row, out_edges_of, in_edges_of};
ghost use Rattle.pgs_syntax.specs.Typed.{is_typed_edge};

use pgs_base::{EdgeId, NodeId, Steps};
use pgs_conform::{Compiled, Pair, edge_typed};
use pgs_graph::{EdgeRef, GraphRead, NodeRef};
use std::sync::ledger::Ledger;

/// The edge at a place among those that go out of a node, or that come in at it. One look-up.
pub fn edge_along<G: GraphRead, L: Ledger>(
    graph: &G,
    node: NodeId,
    forward: bool,
    nth: usize,
    steps: &mut Steps<L>,
) -> Option<EdgeId>
    ensures value { result ≡ slice_get (cond forward (out_edges_of (G.meaning graph.now) node) (in_edges_of (G.meaning graph.now) node)) nth }
    ensures tick { steps.new ≡ steps.old + 1 }
{
    if forward {
        graph.out_edge(node, nth, steps)
    } else {
        graph.in_edge(node, nth, steps)
    }
}

// What a node carries, as a pair.
fn pair_of(node: NodeRef<'_>) -> Pair<'_>
    ensures { result ≡ pair_of node.entry.labels.now node.entry.props.now }
{
    Pair {
        labels: node.labels,
        props: node.props,
    }
}

/// Whether an edge is typed, by the pairs of its ends in the graph and its own. At most two look-ups. The rule is `is_typed_edge` of
/// `pgs_syntax`.
pub fn is_edge_typed<G: GraphRead, L: Ledger>(
    graph: &G,
    compiled: &Compiled,
    edge: EdgeRef<'_>,
    steps: &mut Steps<L>,
) -> bool
    ensures typed { result ≡ is_typed_edge compiled.now (G.meaning graph.now)
        (edge_row edge.entry.source edge.entry.target edge.entry.labels.now edge.entry.props.now) }
    ensures no_step_back { steps.old ≤ steps.new }
    ensures at_most { steps.new ≤ steps.old + 2 }
{
    let Some(source) = graph.node(edge.source, steps) else {
        return false;
    };
    let Some(target) = graph.node(edge.target, steps) else {
        return false;
    };
    let own = Pair {
        labels: edge.labels,
        props: edge.props,
    };
    edge_typed(compiled, &pair_of(source), &own, &pair_of(target))
}
