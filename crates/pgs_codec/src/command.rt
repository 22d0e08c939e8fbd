use pgs_base::{Bytes, EdgeId, EdgeRow, List, NodeId, NodeRow};
use pgs_graph::Txn;

/// What one record of a journal holds.
#[derive(Drop)]
pub enum Command {
    /// The text of a schema, in any bytes.
    Schema(Bytes),
    /// A transaction that was committed.
    Txn(Txn),
    /// A whole graph, its rows by ascending number.
    Snapshot {
        /// How many transactions were committed before.
        commits: u64,
        nodes: List<(NodeId, NodeRow)>,
        edges: List<(EdgeId, EdgeRow)>,
    },
}
