use pgs_base::EdgeId;

/// A part of a list of edges: a range of places of the base's list, or an edge that is put in.
#[derive(Clone, Copy)]
pub enum Part {
    Range { from: usize, to: usize },
    Added(EdgeId),
}

/// A part, and how many edges come before it.
#[derive(Clone, Copy)]
pub struct Placed {
    pub start: usize,
    pub part: Part,
}
