ghost use Rattle.std.specs.Prelude.{◌≡◌, ◌+◌, ◌≤◌, true, length, slice_get, option_map, Some, IfOk, IfSome, OnOk};
ghost use Rattle.std.specs.Map.{keys_of};
ghost use Rattle.pgs_base.specs.declared.row.EdgeRow.{EdgeRow};
ghost use Rattle.pgs_base.specs.Graph.{Graph, node_at, edge_at, element_count, is_graph};
ghost use Rattle.pgs_base.specs.Pair.{pair_of};
ghost use Rattle.pgs_graph.specs.Reads.{edge_row, out_edges_of, in_edges_of};

use pgs_base::{EdgeId, EdgeRow, Labels, List, Memory, NodeId, NodeRow, Props, Steps};
use std::alloc::Global;
use std::sync::ledger::Ledger;

/// What a node carries, where the graph has it.
#[derive(Clone, Copy)]
pub struct NodeRef<'a> {
    pub labels: &'a Labels,
    pub props: &'a Props,
}

impl<'a> NodeRef<'a> {
    /// What a row has.
    pub fn of(row: &'a NodeRow) -> NodeRef<'a>
        ensures { pair_of result.labels.now result.props.now ≡ row.now }
    {
        NodeRef {
            labels: &row.labels,
            props: &row.props,
        }
    }
}

/// The ends of an edge and what it carries, where the graph has it.
#[derive(Clone, Copy)]
pub struct EdgeRef<'a> {
    pub source: NodeId,
    pub target: NodeId,
    pub labels: &'a Labels,
    pub props: &'a Props,
}

impl<'a> EdgeRef<'a> {
    /// What a row has.
    pub fn of(row: &'a EdgeRow) -> EdgeRef<'a>
        ensures { edge_row result.source result.target result.labels.now result.props.now ≡ row.now }
    {
        EdgeRef {
            source: row.source,
            target: row.target,
            labels: &row.labels,
            props: &row.props,
        }
    }
}

/// A graph that is read. Its meaning is a graph of the definitions, and each read answers by it.
///
/// The first four reads tick once and take no memory.
pub trait GraphRead {
    ghost meaning: { Self → Graph };

    /// What a node carries. `None` exactly where there is no such node.
    fn node<L: Ledger>(&self, id: NodeId, steps: &mut Steps<L>) -> Option<NodeRef<'_>>
        ensures value { option_map (λ node. pair_of node.labels.now node.props.now) result ≡ node_at (meaning self.now) id }
        ensures tick { steps.new ≡ steps.old + 1 }
        ensures graph { is_graph (meaning self.now) ≡ true };

    /// The ends of an edge and what it carries. `None` exactly where there is no such edge.
    fn edge<L: Ledger>(&self, id: EdgeId, steps: &mut Steps<L>) -> Option<EdgeRef<'_>>
        ensures value { option_map (λ edge. edge_row edge.source edge.target edge.labels.now edge.props.now) result
            ≡ edge_at (meaning self.now) id }
        ensures tick { steps.new ≡ steps.old + 1 }
        ensures graph { is_graph (meaning self.now) ≡ true };

    /// The edge at a place, from 0, among those that go out of a node, by ascending number. `None` exactly past the
    /// last; a node that isn't there has none.
    fn out_edge<L: Ledger>(&self, id: NodeId, nth: usize, steps: &mut Steps<L>) -> Option<EdgeId>
        ensures value { result ≡ slice_get (out_edges_of (meaning self.now) id) nth }
        ensures goes_out { IfSome result (λ edge. option_map (λ (row : EdgeRow). row.source) (edge_at (meaning self.now) edge) ≡ Some id) }
        ensures tick { steps.new ≡ steps.old + 1 }
        ensures graph { is_graph (meaning self.now) ≡ true };

    /// The edge at a place, from 0, among those that come in at a node, by ascending number. `None` exactly past the
    /// last; a node that isn't there has none.
    fn in_edge<L: Ledger>(&self, id: NodeId, nth: usize, steps: &mut Steps<L>) -> Option<EdgeId>
        ensures value { result ≡ slice_get (in_edges_of (meaning self.now) id) nth }
        ensures comes_in { IfSome result (λ edge. option_map (λ (row : EdgeRow). row.target) (edge_at (meaning self.now) edge) ≡ Some id) }
        ensures tick { steps.new ≡ steps.old + 1 }
        ensures graph { is_graph (meaning self.now) ≡ true };

    /// The numbers of all nodes, ascending, with a tick for each. After `Memory` no more ticks than nodes.
    fn node_ids<L: Ledger>(
        &self,
        alloc: Global,
        steps: &mut Steps<L>,
    ) -> Result<List<NodeId>, Memory>
        ensures ids { IfOk result (λ ids. ids ≡ keys_of (meaning self.now).nodes) }
        ensures each_ticks { OnOk result (steps.new ≡ steps.old + length (meaning self.now).nodes) }
        ensures no_step_back { steps.old ≤ steps.new }
        ensures at_most { steps.new ≤ steps.old + length (meaning self.now).nodes }
        ensures graph { is_graph (meaning self.now) ≡ true };

    /// The numbers of all edges, ascending, with a tick for each. After `Memory` no more ticks than edges.
    fn edge_ids<L: Ledger>(
        &self,
        alloc: Global,
        steps: &mut Steps<L>,
    ) -> Result<List<EdgeId>, Memory>
        ensures ids { IfOk result (λ ids. ids ≡ keys_of (meaning self.now).edges) }
        ensures each_ticks { OnOk result (steps.new ≡ steps.old + length (meaning self.now).edges) }
        ensures no_step_back { steps.old ≤ steps.new }
        ensures at_most { steps.new ≤ steps.old + length (meaning self.now).edges }
        ensures graph { is_graph (meaning self.now) ≡ true };

    /// How many nodes and edges there are together.
    fn count(&self) -> u64
        ensures value { result ≡ element_count (meaning self.now) }
        ensures graph { is_graph (meaning self.now) ≡ true };
}

/// Ticks so many times.
pub fn tick_each<L: Ledger>(steps: &mut Steps<L>, times: usize)
    ensures { steps.new ≡ steps.old + times }
{
    let mut left = times;
    while left > 0 {
        steps.tick();
        left -= 1;
    }
}
