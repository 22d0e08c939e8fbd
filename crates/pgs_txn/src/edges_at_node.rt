//! The edges at a node: those of the graph at the start that were not changed, and those that were put in.

ghost use Rattle.std.specs.Prelude.{◌≡◌, ◌+◌, ◌≤◌, ◌||◌, Bool, true, IfSome, length, slice_get};
ghost use Rattle.pgs_base.specs.declared.element.EdgeId.{EdgeId};
ghost use Rattle.pgs_base.specs.Graph.{edge_at};
ghost use Rattle.pgs_graph.specs.Reads.{degree_of};
ghost use Rattle.pgs_txn.specs.Looks.{edges_of, has_direction, is_at_node, is_unchanged_at};
ghost use Rattle.pgs_txn.specs.Rows.{IsLeast};
ghost use Rattle.pgs_txn.specs.Working.{StandsOn, graph_now};

use crate::changed_rows::ChangedRows;
use crate::working::Working;
use pgs_base::{EdgeId, NodeId, Steps};
use pgs_graph::GraphRead;
use std::sync::ledger::Ledger;

/// From which end of an edge a node sees it.
#[derive(Clone, Copy)]
pub(crate) enum Direction {
    Out,
    In,
}

/// The edge at a place, from 0, among those of a direction at a node. `None` exactly past the last. One look at the graph.
pub(crate) fn edge_in<G: GraphRead, L: Ledger>(
    graph: &G,
    direction: Direction,
    id: NodeId,
    nth: usize,
    steps: &mut Steps<L>,
) -> Option<EdgeId>
    ensures value { result ≡ slice_get (edges_of direction (G.meaning graph.now) id) nth }
    ensures direction { IfSome result (λ edge. has_direction direction id (edge_at (G.meaning graph.now) edge) ≡ true) }
    ensures tick { steps.new ≡ steps.old + 1 }
{
    match direction {
        Direction::Out => graph.out_edge(id, nth, steps),
        Direction::In => graph.in_edge(id, nth, steps),
    }
}

// The least edge of a direction at a node, in the graph at the start, that was not changed.
fn first_unchanged<G: GraphRead, L: Ledger>(
    graph: &G,
    rows: &ChangedRows,
    direction: Direction,
    id: NodeId,
    steps: &mut Steps<L>,
) -> Option<EdgeId>
    ensures least { IsLeast (is_unchanged_at direction id (G.meaning graph.now) rows.now) result }
    ensures no_step_back { steps.old ≤ steps.new }
    ensures looks { steps.new ≤ steps.old + length (edges_of direction (G.meaning graph.now) id) + 1 }
{
    for nth in 0..graph.count() as usize {
        let Some(edge) = edge_in(graph, direction, id, nth, steps) else {
            return None;
        };
        if !rows.edges.contains(&edge) {
            return Some(edge);
        }
    }
    None
}

// The lesser of two edges, where there are some.
fn lesser(a: Option<EdgeId>, b: Option<EdgeId>) -> Option<EdgeId>
    ensures { (first second : EdgeId → Bool) → IsLeast first a → IsLeast second b → IsLeast (λ edge. first edge || second edge) result }
{
    match a {
        Some(first) => match b {
            Some(second) if second.0 < first.0 => Some(second),
            _ => Some(first),
        },
        None => b,
    }
}

impl Working {
    /// The least edge at a node. The graph's edges at the node are walked at most once.
    pub fn least_edge<G: GraphRead, L: Ledger>(
        &self,
        graph: &G,
        id: NodeId,
        steps: &mut Steps<L>,
    ) -> Option<EdgeId>
        requires { StandsOn (G.meaning graph.now) self.now }
        ensures least { IsLeast (is_at_node id (graph_now (G.meaning graph.now) self.now)) result }
        ensures no_step_back { steps.old ≤ steps.new }
        ensures looks { steps.new ≤ steps.old + degree_of (G.meaning graph.now) id + 2 }
    {
        let put = self.rows.first_put_at(id);
        if self.cleared.contains(&id) {
            return put;
        }
        let out = first_unchanged(graph, &self.rows, Direction::Out, id, steps);
        let into = first_unchanged(graph, &self.rows, Direction::In, id, steps);
        lesser(lesser(out, into), put)
    }
}
