use crate::Spec;
use pgs_base::Name;

/// A node type. `hidden` is the word ABSTRACT: the type makes no node typed. `place` is the number of the declaration
/// in the script, from 1, over element types, graph types and keys together.
#[derive(Drop)]
pub struct NodeType<N> {
    pub name: Name,
    pub hidden: bool,
    pub place: u32,
    pub spec: Spec<N>,
}

/// An edge type, with specifications of its source, of the edge and of its target. `hidden` and `place` are as in
/// [`NodeType`].
#[derive(Drop)]
pub struct EdgeType<N> {
    pub name: Name,
    pub hidden: bool,
    pub place: u32,
    pub source: Spec<N>,
    pub middle: Spec<N>,
    pub target: Spec<N>,
}
