//! The two ends of an edge.

ghost use Rattle.std.specs.Prelude.{◌≡◌};
ghost use Rattle.pgs_graph.specs.Reads.{end_of};

use pgs_base::{EdgeRow, NodeId};

/// One of the two ends of an edge.
#[derive(Clone, Copy)]
pub enum End {
    Source,
    Target,
}

impl End {
    /// The node that is this end of an edge.
    pub(crate) fn of(self, row: &EdgeRow) -> NodeId
        ensures { result ≡ end_of self row.now }
    {
        match self {
            End::Source => row.source,
            End::Target => row.target,
        }
    }
}
