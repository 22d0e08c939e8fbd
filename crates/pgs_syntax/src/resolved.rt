use crate::{EdgeType, Key, Leaf, NodeType};
use pgs_base::List;

/// The number of a node type or of an edge type, from 0 in each kind.
#[derive(Clone, Copy, PartialEq, Eq)]
pub enum TypeNo {
    Node(u32),
    Edge(u32),
}

/// What the guard, the last graph type of a script, asks: whether each element must be typed, by which types, and its
/// keys, which are numbered from 1.
#[derive(Drop)]
pub struct Guarding {
    pub strict: bool,
    pub types: List<TypeNo>,
    pub keys: List<Key>,
}

/// A schema with its names resolved. Node types, and apart from them edge types, stand so that a named number in a node
/// type, or in an edge type's middle, is less than the number of the type that holds it.
#[derive(Drop)]
pub struct Resolved {
    pub nodes: List<NodeType<Leaf>>,
    pub edges: List<EdgeType<Leaf>>,
    pub guard: Guarding,
}
