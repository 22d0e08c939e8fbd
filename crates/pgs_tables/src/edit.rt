use pgs_base::EdgeId;

/// On which side of a node an edge stands in its lists.
#[derive(Clone, Copy)]
pub(crate) enum Side {
    Out,
    In,
}

/// An edge put into the lists of a node, or taken out.
#[derive(Clone, Copy)]
pub(crate) struct Edit {
    pub(crate) side: Side,
    pub(crate) adds: bool,
    pub(crate) edge: EdgeId,
}
