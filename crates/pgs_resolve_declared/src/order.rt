use crate::names::Names;

/// The names of the node types and of the edge types, each at the place of its number.
#[derive(Drop)]
pub struct Numbering {
    pub nodes: Names,
    pub edges: Names,
}
