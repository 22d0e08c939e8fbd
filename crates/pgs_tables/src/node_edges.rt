ghost use Rattle.std.specs.Prelude.{◌≡◌, IfOk};
ghost use Rattle.pgs_graph.specs.Lists.{list_edited};
ghost use Rattle.pgs_tables.specs.Adjacency.{no_edges};
ghost use Rattle.pgs_tables.specs.Relists.{edges_edited};

use crate::edit::{Edit, Side};
use pgs_base::{Copyable, EdgeId, Memory, NodeRow};
use pgs_tables_edges::EdgeList;
use std::alloc::Global;

/// The edges that go out of a node and those that come in, each by ascending number.
#[derive(Drop)]
pub struct NodeEdges {
    pub outgoing: EdgeList,
    pub incoming: EdgeList,
}

/// A node's row in the tables.
#[derive(Drop)]
pub(crate) struct NodeTable {
    pub(crate) row: NodeRow,
    pub(crate) edges: NodeEdges,
}

impl NodeEdges {
    /// No edges. It takes no memory.
    pub fn new(alloc: Global) -> NodeEdges
        ensures { result ≡ no_edges }
    {
        NodeEdges {
            outgoing: EdgeList::new(alloc),
            incoming: EdgeList::new(alloc),
        }
    }

    /// The edges after an edit. `Memory` where none was left.
    pub(crate) fn with_edit(&self, alloc: Global, edit: Edit) -> Result<NodeEdges, Memory>
        ensures { IfOk result (λ edges. edges ≡ edges_edited edit self.now) }
    {
        match edit.side {
            Side::Out => {
                let outgoing = edited_list(alloc, &self.outgoing, edit.adds, edit.edge)?;
                let incoming = self.incoming.copy(alloc)?;
                Ok(NodeEdges { outgoing, incoming })
            }
            Side::In => {
                let outgoing = self.outgoing.copy(alloc)?;
                let incoming = edited_list(alloc, &self.incoming, edit.adds, edit.edge)?;
                Ok(NodeEdges { outgoing, incoming })
            }
        }
    }
}

fn edited_list(alloc: Global, list: &EdgeList, adds: bool, edge: EdgeId) -> Result<EdgeList, Memory>
    ensures { IfOk result (λ edited. edited ≡ list_edited adds edge list.now) }
{
    if adds {
        list.with(alloc, edge)
    } else {
        list.without(alloc, edge)
    }
}
