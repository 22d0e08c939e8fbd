//! The rows that a transaction has changed so far, by element, and at which nodes the edges among them stand.

ghost use Rattle.std.specs.Prelude.{◌≡◌, ◌<◌, [], IfOk, OnOk, Some, None, false, true, length};
ghost use Rattle.std.specs.BTreeMap.{is_at, insert_entry};
ghost use Rattle.std.specs.List.Sorted.{IsStrictlySortedBy};
ghost use Rattle.std.specs.Map.{keys_of, lookup};
ghost use Rattle.pgs_base.specs.Graph.{node_cmp, edge_cmp};
ghost use Rattle.pgs_txn.specs.Rows.{IsIndexed, IsLeast, delta_of, edge_change, end_cmp, ends_left, ends_with, was_put, was_put_at};

use pgs_base::{EdgeId, EdgeRow, List, Memory, NodeId, NodeRow};
use pgs_base_keyed::Keyed;
use pgs_graph::Delta;
use std::alloc::Global;

/// A node that is an end of an edge.
#[derive(Clone, Copy, PartialEq, Eq, PartialOrd, Ord)]
pub(crate) struct EdgeEnd {
    pub node: NodeId,
    pub edge: EdgeId,
}

/// Changed rows: the row after the changes, `None` for removed. Beside them the ends of the edges that have a row.
#[derive(Drop)]
pub(crate) struct ChangedRows {
    pub nodes: Keyed<NodeId, Option<NodeRow>>,
    pub edges: Keyed<EdgeId, Option<EdgeRow>>,
    pub ends: Keyed<EdgeEnd, ()>,
}

// Puts the ends of an edge in.
fn put_ends(ends: &mut Keyed<EdgeEnd, ()>, id: EdgeId, row: &EdgeRow) -> Result<(), Memory>
    ensures { OnOk result (keys_of ends.new ≡ ends_with id row.now (keys_of ends.old)) }
{
    let source = EdgeEnd {
        node: row.source,
        edge: id,
    };
    ends.set(source, ())?;
    let target = EdgeEnd {
        node: row.target,
        edge: id,
    };
    ends.set(target, ())?;
    Ok(())
}

// Takes the ends of an edge out, where it was put in.
fn remove_ends(ends: &mut Keyed<EdgeEnd, ()>, id: EdgeId, change: &Option<Option<EdgeRow>>)
    ensures { keys_of ends.new ≡ ends_left id change.now (keys_of ends.old) }
{
    if let Some(Some(row)) = change {
        ends.unset(&EdgeEnd {
            node: row.source,
            edge: id,
        });
        ends.unset(&EdgeEnd {
            node: row.target,
            edge: id,
        });
    }
}

impl ChangedRows {
    /// No changes, in a form that suits about so many changes of nodes and of edges. It takes no memory.
    pub fn new(alloc: Global, changes: usize) -> ChangedRows
        ensures none { delta_of result ≡ record { nodes = []; edges = [] } }
        ensures indexed { IsIndexed result }
    {
        ChangedRows {
            nodes: Keyed::new(alloc, changes),
            edges: Keyed::new(alloc, changes),
            ends: Keyed::new(alloc, changes.saturating_mul(2)),
        }
    }

    /// Changes a node, and answers its earlier change, if there is one.
    pub fn put_node(
        &mut self,
        id: NodeId,
        row: Option<NodeRow>,
    ) -> Result<Option<Option<NodeRow>>, Memory>
        requires { IsIndexed self.old }
        ensures earlier { IfOk result (λ earlier. earlier ≡ lookup (is_at (node_cmp id)) self.old.nodes) }
        ensures nodes { OnOk result (self.new.nodes ≡ insert_entry node_cmp self.old.nodes id row) }
        ensures edges { self.new.edges ≡ self.old.edges }
        ensures indexed { OnOk result (IsIndexed self.new) }
    {
        self.nodes.set(id, row)
    }

    /// Puts an edge in that was not changed, or was removed.
    pub fn put_edge(&mut self, id: EdgeId, row: EdgeRow) -> Result<(), Memory>
        requires indexed { IsIndexed self.old }
        requires absent { was_put (edge_change self.old id) ≡ false }
        ensures edges { OnOk result (self.new.edges ≡ insert_entry edge_cmp self.old.edges id (Some row)) }
        ensures nodes { self.new.nodes ≡ self.old.nodes }
        ensures indexed { OnOk result (IsIndexed self.new) }
    {
        put_ends(&mut self.ends, id, &row)?;
        self.edges.set(id, Some(row))?;
        Ok(())
    }

    /// Removes an edge, and answers its earlier change, if there is one.
    pub fn take_edge(&mut self, id: EdgeId) -> Result<Option<Option<EdgeRow>>, Memory>
        requires { IsIndexed self.old }
        ensures earlier { IfOk result (λ earlier. earlier ≡ edge_change self.old id) }
        ensures edges { OnOk result (self.new.edges ≡ insert_entry edge_cmp self.old.edges id None) }
        ensures nodes { self.new.nodes ≡ self.old.nodes }
        ensures indexed { OnOk result (IsIndexed self.new) }
        ensures fewer { OnOk result (was_put (edge_change self.old id) ≡ true → length self.new.ends < length self.old.ends) }
    {
        let earlier = self.edges.set(id, None)?;
        remove_ends(&mut self.ends, id, &earlier);
        Ok(earlier)
    }

    /// The least of the edges that were put in at a node.
    pub fn first_put_at(&self, id: NodeId) -> Option<EdgeId>
        requires { IsIndexed self.now }
        ensures { IsLeast (λ edge. was_put_at id (edge_change self.now edge)) result }
    {
        let start = EdgeEnd {
            node: id,
            edge: EdgeId(0),
        };
        match self.ends.first_from(&start) {
            Some(end) if end.node == id => Some(end.edge),
            _ => None,
        }
    }

    /// The changes as a delta.
    pub fn into_delta(self, alloc: Global) -> Result<Delta, Memory>
        ensures { IfOk result (λ delta. delta ≡ delta_of self) }
    {
        let ChangedRows {
            nodes,
            edges,
            ends: _,
        } = self;
        let nodes = nodes.into_vec(alloc)?;
        let edges = edges.into_vec(alloc)?;
        Ok(Delta {
            nodes: List::from_vec(nodes),
            edges: List::from_vec(edges),
        })
    }
}
