use pgs_base::{EdgeId, EdgeRow, List, NodeId, NodeRow};

/// The rows that a change leaves, by ascending numbers: the row after the change, `None` for removed.
#[derive(Drop)]
pub struct Delta {
    pub nodes: List<(NodeId, Option<NodeRow>)>,
    pub edges: List<(EdgeId, Option<EdgeRow>)>,
}
