use crate::NodeEdges;
use pgs_base::{List, NodeId};
use pgs_graph::Delta;

/// A delta for which `Tables::prepare` has taken all memory, with the edges, after it, of each node at which it changes an
/// edge.
#[derive(Drop)]
pub struct Prepared {
    pub(crate) delta: Delta,
    pub(crate) lists: List<(NodeId, NodeEdges)>,
}
