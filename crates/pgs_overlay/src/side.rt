/// One of the two lists of edges at a node.
#[derive(Clone, Copy)]
pub enum Side {
    /// The edges that go out of it.
    Out,
    /// The edges that come in at it.
    In,
}
