use pgs_base::{Labels, Props};

/// What an element carries, owned.
#[derive(Drop)]
pub struct OwnedPair {
    pub labels: Labels,
    pub props: Props,
}

/// What fits a type of one schema and is untyped in another: a node's pair, or the pairs of an edge's source, of the edge itself
/// and of its target.
#[derive(Drop)]
pub enum Outside {
    Node(OwnedPair),
    Edge {
        source: OwnedPair,
        middle: OwnedPair,
        target: OwnedPair,
    },
}
