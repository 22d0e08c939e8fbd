use pgs_base::{Elem, List, TupleSet};

/// What becomes of the row of an element under a key: its key values, or `None` where it leaves the scope. Keys are numbered from 1.
#[derive(Drop)]
pub struct KeyChange {
    pub key: u32,
    pub elem: Elem,
    pub values: Option<TupleSet>,
}

/// Changes for which `KeyIndex::prepare` has taken all memory.
#[derive(Drop)]
pub struct KeyReady {
    pub(crate) changes: List<KeyChange>,
}
