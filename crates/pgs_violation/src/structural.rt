use pgs_base::{EdgeId, Elem, NodeId};

/// Why an operation can't be done (refusal 23).
#[derive(Clone, Copy, Debug, PartialEq, Eq)]
pub enum Cause {
    /// An add names an element that is there.
    AlreadyThere(Elem),
    /// The node isn't there.
    NoNode(NodeId),
    /// The edge isn't there.
    NoEdge(EdgeId),
    /// A node that is to be removed has edges, of which this is the least.
    HasEdges(NodeId, EdgeId),
}

/// A refusal that comes before any judgement of the changed graph.
#[derive(Clone, Copy, Debug, PartialEq, Eq)]
pub enum Structural {
    /// 22: more operations than the limit.
    TooManyOps { count: u64 },
    /// 23: operation `op`, from 1, is the first that can't be done.
    BadOp { op: u64, cause: Cause },
    /// 38: operation `op` is the first at fault, and its element would have over 64 labels or 256 properties.
    ElementTooLarge { op: u64 },
    /// 24: all operations can be done, and nodes and edges together are more than the limit.
    TooManyElements { count: u64 },
}
