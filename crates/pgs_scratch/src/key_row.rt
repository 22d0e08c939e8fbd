use pgs_base::{Elem, TupleSet};

/// An element of a key's scope with its key values.
#[derive(Drop)]
pub struct KeyRow {
    pub elem: Elem,
    pub tuples: TupleSet,
}
