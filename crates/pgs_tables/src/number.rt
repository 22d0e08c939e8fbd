ghost use Rattle.std.proofs.lemmas.Map.Lookups.{CmpEqualImpliesEq};
ghost use Rattle.pgs_graph.proofs.Deltas.{exact_node, exact_edge};

use pgs_base::{EdgeId, NodeId};
use std::hash::Hash;

/// What is a number with a name of its own.
pub trait Numeric {
    /// The number itself.
    fn number(&self) -> u64;
}

/// What rows are numbered by: keys that are equal where their order doesn't tell them apart.
pub trait Number: Ord + Hash + Copy + Drop + Numeric {
    ghost exact: { CmpEqualImpliesEq Self.cmp };
}

impl Numeric for NodeId {
    fn number(&self) -> u64 {
        self.0
    }
}

impl Numeric for EdgeId {
    fn number(&self) -> u64 {
        self.0
    }
}

impl Number for NodeId {
    ghost exact = { exact_node };
}

impl Number for EdgeId {
    ghost exact = { exact_edge };
}
