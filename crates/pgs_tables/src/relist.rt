//! The new lists of edges of the nodes at the edges that a delta changes, in one pass over these.

ghost use Rattle.std.specs.Prelude.{◌≡◌, ◌+◌, ◌≤◌, true, None, Some, length, IfOk, OnOk, [], ◌∷◌};
ghost use Rattle.std.specs.Option.{option_copied, option_map};
ghost use Rattle.std.specs.List.{list_all};
ghost use Rattle.std.specs.List.Sorted.{IsStrictlySortedBy};
ghost use Rattle.std.specs.Map.{keys_of, lookup};
ghost use Rattle.std.specs.BTreeMap.{is_at};
ghost use Rattle.pgs_base.specs.declared.element.NodeId.{NodeId};
ghost use Rattle.pgs_base.specs.declared.row.NodeRow.{NodeRow};
ghost use Rattle.pgs_base.specs.Graph.{node_cmp, node_at};
ghost use Rattle.pgs_graph.specs.Changed.{is_sound};
ghost use Rattle.pgs_tables.specs.Slots.{has_slot};
ghost use Rattle.pgs_tables.specs.Adjacency.{node_edges, touched_edges};
ghost use Rattle.pgs_tables.specs.Relists.{edges_edited, stays, relisted as relisted_at, relisted_ends, relisted_all};
ghost use Rattle.std.specs.Option.{unwrap_or};

use crate::edit::{Edit, Side};
use crate::{NodeEdges, Number, Numbered, Tables};
use pgs_base::{EdgeId, EdgeRow, List, Memory, NodeId, NodeRow};
use pgs_base_keyed::Keyed;
use pgs_graph::Delta;
use std::alloc::Global;
use std::cmp::Ordering;

/// Makes a slot for each changed number that has none. After `Memory` some have got one.
pub(crate) fn make_slots<K: Number, V: Drop, W>(
    table: &mut Numbered<K, V>,
    changes: &[(K, Option<W>)],
) -> Result<(), Memory>
    ensures rows { table.new.rows ≡ table.old.rows }
    ensures seed { table.new.seed ≡ table.old.seed }
    ensures there { OnOk result (list_all (has_slot K.cmp table.new) (keys_of changes.now) ≡ true) }
    ensures few { length table.new.numbers ≤ length table.old.numbers + length changes.now }
{
    for change in changes {
        table.make_slot(change.0)?;
    }
    Ok(())
}

// Whether changes of ascending numbers leave a node, where it is there.
fn leaves(changes: &[(NodeId, Option<NodeRow>)], id: NodeId) -> bool
    requires { IsStrictlySortedBy node_cmp (keys_of changes.now) }
    ensures { result ≡ stays changes.now id }
{
    let place = changes.binary_search_by(
        |change: &(NodeId, Option<NodeRow>)| -> Ordering
            ensures { result ≡ node_cmp change.now.0 id }
        { change.0.cmp(&id) },
    );
    match place {
        Ok(place) => changes[place].1.is_some(),
        Err(_) => true,
    }
}

// Edges by node as a list, by ascending number.
fn list_of(
    alloc: Global,
    touched: Keyed<NodeId, NodeEdges>,
) -> Result<List<(NodeId, NodeEdges)>, Memory>
    ensures lists { IfOk result (λ lists. lists ≡ touched) }
    ensures ascending { IfOk result (λ lists. IsStrictlySortedBy node_cmp (keys_of lists)) }
{
    let lists = touched.into_vec(alloc)?;
    Ok(List::from_vec(lists))
}

impl Tables {
    /// The edges after a sound delta of each node that is there then and at which it changes an edge. `Memory` where none was left.
    pub(crate) fn relisted_edges(&self, delta: &Delta) -> Result<List<(NodeId, NodeEdges)>, Memory>
        requires { is_sound self.now.graph delta.now ≡ true }
        ensures { IfOk result (λ lists. lists ≡ touched_edges self.now.graph delta.now) }
    {
        let nodes = delta.nodes.as_slice();
        // A changed edge has two ends, and seldom others than before.
        let ends = delta.edges.len().saturating_mul(2);
        let mut touched = Keyed::new(self.alloc, ends);
        self.relist_edges(&mut touched, nodes, delta.edges.as_slice())?;
        list_of(self.alloc, touched)
    }

    // The edges at a node, where it is there.
    fn edges_at(&self, id: NodeId) -> Option<&NodeEdges>
        ensures { option_copied result ≡ option_map (λ (row : NodeRow). node_edges self.now.graph id) (node_at self.now.graph id) }
    {
        match self.nodes.get(id) {
            Some(table) => Some(&table.edges),
            None => None,
        }
    }

    // The edges at a node after an edit: of those that are made already, and else of those that it had.
    fn edited_edges(
        &self,
        touched: &Keyed<NodeId, NodeEdges>,
        id: NodeId,
        edit: Edit,
    ) -> Result<NodeEdges, Memory>
        ensures { IfOk result (λ edges. edges ≡ edges_edited edit
            (unwrap_or (lookup (is_at (node_cmp id)) touched.now) (node_edges self.now.graph id))) }
    {
        if let Some(edges) = touched.get(&id) {
            return edges.with_edit(self.alloc, edit);
        }
        match self.edges_at(id) {
            Some(edges) => edges.with_edit(self.alloc, edit),
            None => NodeEdges::new(self.alloc).with_edit(self.alloc, edit),
        }
    }

    // An edit of the edges at a node, unless the delta takes the node out.
    fn relist(
        &self,
        touched: &mut Keyed<NodeId, NodeEdges>,
        nodes: &[(NodeId, Option<NodeRow>)],
        id: NodeId,
        edit: Edit,
    ) -> Result<(), Memory>
        requires { IsStrictlySortedBy node_cmp (keys_of nodes.now) }
        ensures { OnOk result ((q : NodeId) → lookup (is_at (node_cmp q)) touched.new
            ≡ relisted_at (node_edges self.now.graph q) (stays nodes.now q) q id edit.side edit.adds edit.edge (lookup (is_at (node_cmp q)) touched.old)) }
    {
        if !leaves(nodes, id) {
            return Ok(());
        }
        let edges = self.edited_edges(touched, id, edit)?;
        touched.set(id, edges)?;
        Ok(())
    }

    // An edit at both ends of an edge, where there is one.
    fn relist_ends(
        &self,
        touched: &mut Keyed<NodeId, NodeEdges>,
        nodes: &[(NodeId, Option<NodeRow>)],
        adds: bool,
        edge: EdgeId,
        row: Option<&EdgeRow>,
    ) -> Result<(), Memory>
        requires { IsStrictlySortedBy node_cmp (keys_of nodes.now) }
        ensures { OnOk result ((q : NodeId) → lookup (is_at (node_cmp q)) touched.new
            ≡ relisted_ends (node_edges self.now.graph q) (stays nodes.now q) q adds edge (option_copied row.entry) (lookup (is_at (node_cmp q)) touched.old)) }
    {
        let Some(row) = row else {
            return Ok(());
        };
        let out = Edit {
            side: Side::Out,
            adds,
            edge,
        };
        self.relist(touched, nodes, row.source, out)?;
        let into = Edit {
            side: Side::In,
            adds,
            edge,
        };
        self.relist(touched, nodes, row.target, into)?;
        Ok(())
    }

    // A changed edge taken out at its old ends, and put in at its new ones.
    fn relist_change(
        &self,
        touched: &mut Keyed<NodeId, NodeEdges>,
        nodes: &[(NodeId, Option<NodeRow>)],
        change: &(EdgeId, Option<EdgeRow>),
    ) -> Result<(), Memory>
        requires { IsStrictlySortedBy node_cmp (keys_of nodes.now) }
        ensures { OnOk result ((q : NodeId) → lookup (is_at (node_cmp q)) touched.new
            ≡ relisted_all self.now.graph nodes.now q (change.now ∷ []) (lookup (is_at (node_cmp q)) touched.old)) }
    {
        let old = self.edges.get(change.0);
        self.relist_ends(touched, nodes, false, change.0, old)?;
        self.relist_ends(touched, nodes, true, change.0, change.1.as_ref())?;
        Ok(())
    }

    fn relist_edges(
        &self,
        touched: &mut Keyed<NodeId, NodeEdges>,
        nodes: &[(NodeId, Option<NodeRow>)],
        changes: &[(EdgeId, Option<EdgeRow>)],
    ) -> Result<(), Memory>
        requires { IsStrictlySortedBy node_cmp (keys_of nodes.now) }
        ensures { OnOk result ((q : NodeId) → lookup (is_at (node_cmp q)) touched.new
            ≡ relisted_all self.now.graph nodes.now q changes.now (lookup (is_at (node_cmp q)) touched.old)) }
    {
        for change in changes {
            self.relist_change(touched, nodes, change)?;
        }
        Ok(())
    }
}
