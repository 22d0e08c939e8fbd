ghost use Rattle.std.specs.Prelude.{◌≡◌, true};
ghost use Rattle.pgs_base.specs.Graph.{is_element_number};

use crate::{Copyable, Memory};
use std::alloc::Global;

/// The number of a node.
#[derive(Clone, Copy, Debug, PartialEq, Eq, PartialOrd, Ord, Hash)]
pub struct NodeId(pub u64);

/// The number of an edge. Nodes and edges are numbered apart.
#[derive(Clone, Copy, Debug, PartialEq, Eq, PartialOrd, Ord, Hash)]
pub struct EdgeId(pub u64);

/// A node or an edge. Nodes go before edges, and each kind by its numbers.
#[derive(Clone, Copy, Debug, PartialEq, Eq, PartialOrd, Ord, Hash)]
pub enum Elem {
    Node(NodeId),
    Edge(EdgeId),
}

impl NodeId {
    /// What every number of a node meets: it is below 2^64. Nothing is done.
    pub fn facts(self)
        ensures { is_element_number self.0 ≡ true }
    {}
}

impl EdgeId {
    /// What every number of an edge meets: it is below 2^64. Nothing is done.
    pub fn facts(self)
        ensures { is_element_number self.0 ≡ true }
    {}
}

impl Copyable for NodeId {
    fn copy(&self, _alloc: Global) -> Result<NodeId, Memory> {
        Ok(*self)
    }
}

impl Copyable for EdgeId {
    fn copy(&self, _alloc: Global) -> Result<EdgeId, Memory> {
        Ok(*self)
    }
}
