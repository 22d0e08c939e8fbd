//! The line that sums a workload up.

ghost use Rattle.std.specs.Prelude.{◌≡◌, ◌≤◌, length, IfOk};
ghost use Rattle.pgs_graph.specs.Reads.{in_edges_of};
ghost use Rattle.pgs_run_gen.specs.Told.{summary};

use pgs_answer::gen_line;
use pgs_base::{Bytes, Memory, NodeId, Steps};
use pgs_graph::GraphRead;
use std::alloc::Global;
use std::sync::ledger::Ledger;

// How many edges come in at a node of a graph that has at most so many edges.
fn edges_into<G: GraphRead, L: Ledger>(
    graph: &G,
    id: NodeId,
    edges: usize,
    steps: &mut Steps<L>,
) -> usize
    requires { length (G.meaning graph.now).edges ≤ edges }
    ensures { result ≡ length (in_edges_of (G.meaning graph.now) id) }
{
    for nth in 0..edges {
        if graph.in_edge(id, nth, steps).is_none() {
            return nth;
        }
    }
    edges
}

/// The line of a graph that so many transactions made, where so many others were rejected.
pub(crate) fn summary<G: GraphRead, L: Ledger>(
    alloc: Global,
    graph: &G,
    accepted: u64,
    rejected: u64,
    steps: &mut Steps<L>,
) -> Result<Bytes, Memory>
    ensures { IfOk result (λ line. line ≡ summary accepted rejected (G.meaning graph.now)) }
{
    let nodes = graph.node_ids(alloc, steps)?.len();
    let edges = graph.edge_ids(alloc, steps)?.len();
    let into_first = edges_into(graph, NodeId(1), edges, steps);
    gen_line(
        alloc,
        accepted,
        rejected,
        nodes as u64,
        edges as u64,
        into_first as u64,
    )
}
