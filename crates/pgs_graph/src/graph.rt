ghost use Rattle.std.specs.Prelude.{◌≡◌, ◌+◌, true, slice_get, OnOk, OnErr};
ghost use Rattle.std.specs.List.{list_all};
ghost use Rattle.std.specs.Map.{keys_of};
ghost use Rattle.std.proofs.lemmas.Map.Lookups.{CmpEqualImpliesEq};
ghost use Rattle.pgs_base.specs.Graph.{empty_graph};
ghost use Rattle.pgs_base_slots.specs.Slots.{has_slot, present};
ghost use Rattle.pgs_graph.specs.Changed.{entry_changed, entries_changed, changed, is_sound};
ghost use Rattle.pgs_graph.specs.Lists.{listed};

use crate::relist::{EdgeLists, relist_edges};
use crate::scan::End;
use crate::{Delta, EdgeRef, GraphRead, NodeRef, tick_each};
use pgs_base::{Copyable, EdgeId, EdgeRow, List, Memory, NodeId, NodeRow, Steps};
use pgs_base_slots::Slots;
use std::alloc::Global;
use std::marker::Model;
use std::sync::ledger::Ledger;

/// A property graph: rows by number, and at each node the lists of its edges. Contracts see the graph of the definitions, which is two
/// lists of rows by ascending number.
pub struct Graph {
    alloc: Global,
    nodes: Slots<NodeId, NodeRow>,
    edges: Slots<EdgeId, EdgeRow>,
    outgoing: EdgeLists,
    incoming: EdgeLists,
}

// Dropped by one function of this crate, so that those above need not prove anew how a graph is taken apart.
impl Drop for Graph {
    fn drop(self) {
        let Graph {
            alloc: _,
            nodes: _,
            edges: _,
            outgoing: _,
            incoming: _,
        } = self;
    }
}

impl Model for Graph {
    ghost use Rattle.pgs_base.specs.Graph.{Graph as Meaning};
    ghost use Rattle.pgs_base_slots.specs.Slots.{present};
    ghost use Rattle.pgs_graph.specs.Lists.{AreParts};

    ghost Value = { Meaning };

    ghost view = { λ graph. record { nodes = present graph.nodes; edges = present graph.edges } };

    ghost invariant = { λ graph. AreParts (record { nodes = present graph.nodes; edges = present graph.edges }) (present graph.outgoing)
        (present graph.incoming) };
}

impl Graph {
    /// The graph without nodes and edges. It takes no memory.
    pub fn new(alloc: Global) -> Graph
        ensures { result ≡ empty_graph }
    {
        Graph {
            alloc,
            nodes: Slots::new(alloc),
            edges: Slots::new(alloc),
            outgoing: Slots::new(alloc),
            incoming: Slots::new(alloc),
        }
    }

    /// Puts the rows of a sound delta in, and takes out what it removes. After `Memory` the graph is as it was.
    pub fn change(&mut self, delta: Delta) -> Result<(), Memory>
        requires { is_sound self.old delta ≡ true }
        ensures ok { OnOk result (self.new ≡ changed self.old delta) }
        ensures err { OnErr result (self.new ≡ self.old) }
    {
        let Delta { nodes, edges } = delta;
        let changes = edges.as_slice();
        let outgoing = relist_edges(
            self.alloc,
            End::Source,
            &self.outgoing,
            &self.edges,
            changes,
        )?;
        let incoming = relist_edges(
            self.alloc,
            End::Target,
            &self.incoming,
            &self.edges,
            changes,
        )?;
        self.nodes.make_slots(nodes.as_slice())?;
        self.edges.make_slots(changes)?;
        self.outgoing.make_slots(outgoing.as_slice())?;
        self.incoming.make_slots(incoming.as_slice())?;
        change_rows(&mut self.nodes, nodes);
        change_rows(&mut self.edges, edges);
        change_rows(&mut self.outgoing, outgoing);
        change_rows(&mut self.incoming, incoming);
        Ok(())
    }
}

// Does changes of rows whose keys have slots. It takes no memory.
fn change_rows<K: Ord + Copy + Drop, V: Drop>(rows: &mut Slots<K, V>, changes: List<(K, Option<V>)>)
    requires exact { CmpEqualImpliesEq K.cmp }
    requires there { list_all (has_slot K.cmp rows.old) (keys_of changes) ≡ true }
    ensures { present rows.new ≡ entries_changed K.cmp (present rows.old) changes }
{
    for (key, row) in changes.into_vec() {
        change_row(rows, key, row);
    }
}

fn change_row<K: Ord + Copy + Drop, V: Drop>(rows: &mut Slots<K, V>, key: K, row: Option<V>)
    requires exact { CmpEqualImpliesEq K.cmp }
    requires there { has_slot K.cmp rows.old key ≡ true }
    ensures rows { present rows.new ≡ entry_changed K.cmp (present rows.old) key row }
    ensures slots { keys_of rows.new ≡ keys_of rows.old }
{
    match row {
        Some(row) => rows.put(key, row),
        None => rows.take(key),
    }
}

// The edge at a place among those that are listed at a node.
fn nth_edge(lists: &EdgeLists, id: NodeId, nth: usize) -> Option<EdgeId>
    ensures { result ≡ slice_get (listed (present lists.now) id) nth }
{
    match lists.get(&id) {
        Some(list) => list.at(nth),
        None => None,
    }
}

impl Copyable for Graph {
    fn copy(&self, alloc: Global) -> Result<Graph, Memory> {
        let nodes = self.nodes.copy(alloc)?;
        let edges = self.edges.copy(alloc)?;
        let outgoing = self.outgoing.copy(alloc)?;
        let incoming = self.incoming.copy(alloc)?;
        Ok(Graph {
            alloc,
            nodes,
            edges,
            outgoing,
            incoming,
        })
    }
}

impl GraphRead for Graph {
    ghost meaning = { λ graph. graph };

    fn node<L: Ledger>(&self, id: NodeId, steps: &mut Steps<L>) -> Option<NodeRef<'_>> {
        steps.tick();
        match self.nodes.get(&id) {
            Some(row) => Some(NodeRef::of(row)),
            None => None,
        }
    }

    fn edge<L: Ledger>(&self, id: EdgeId, steps: &mut Steps<L>) -> Option<EdgeRef<'_>> {
        steps.tick();
        match self.edges.get(&id) {
            Some(row) => Some(EdgeRef::of(row)),
            None => None,
        }
    }

    fn out_edge<L: Ledger>(&self, id: NodeId, nth: usize, steps: &mut Steps<L>) -> Option<EdgeId> {
        steps.tick();
        nth_edge(&self.outgoing, id, nth)
    }

    fn in_edge<L: Ledger>(&self, id: NodeId, nth: usize, steps: &mut Steps<L>) -> Option<EdgeId> {
        steps.tick();
        nth_edge(&self.incoming, id, nth)
    }

    fn node_ids<L: Ledger>(
        &self,
        alloc: Global,
        steps: &mut Steps<L>,
    ) -> Result<List<NodeId>, Memory> {
        let ids = self.nodes.keys(alloc)?;
        tick_each(steps, ids.len());
        Ok(ids)
    }

    fn edge_ids<L: Ledger>(
        &self,
        alloc: Global,
        steps: &mut Steps<L>,
    ) -> Result<List<EdgeId>, Memory> {
        let ids = self.edges.keys(alloc)?;
        tick_each(steps, ids.len());
        Ok(ids)
    }

    fn count(&self) -> u64 {
        self.nodes.len() as u64 + self.edges.len() as u64
    }
}
