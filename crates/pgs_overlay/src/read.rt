ghost use Rattle.std.specs.Prelude.{◌≡◌, ◌<◌, IfOk};
ghost use Rattle.std.specs.Map.{keys_of};

use crate::Overlay;
use crate::base_list::BaseList;
use crate::changes::{change_of, changed_keys};
use crate::side::Side;
use pgs_base::{EdgeId, List, Memory, NodeId, Steps};
use pgs_graph::{EdgeRef, GraphRead, NodeRef};
use std::alloc::Global;
use std::marker::Brand;
use std::sync::ledger::{Blank, Ledger};

// The numbers of the base's nodes, with ticks of a counter of its own.
fn base_node_ids<B: GraphRead, L: Ledger>(
    alloc: Global,
    base: &B,
    blank: Blank,
) -> Result<List<NodeId>, Memory>
    requires name { blank.name ≡ L.name }
    requires parts { blank.parts ≡ L.parts }
    requires some { 0 < blank.parts }
    ensures { IfOk result (λ ids. ids ≡ keys_of (B.meaning base.now).nodes) }
{
    let mut steps: Steps<L> = Steps::begin(blank);
    base.node_ids(alloc, &mut steps)
}

// The numbers of the base's edges, with ticks of a counter of its own.
fn base_edge_ids<B: GraphRead, L: Ledger>(
    alloc: Global,
    base: &B,
    blank: Blank,
) -> Result<List<EdgeId>, Memory>
    requires name { blank.name ≡ L.name }
    requires parts { blank.parts ≡ L.parts }
    requires some { 0 < blank.parts }
    ensures { IfOk result (λ ids. ids ≡ keys_of (B.meaning base.now).edges) }
{
    let mut steps: Steps<L> = Steps::begin(blank);
    base.edge_ids(alloc, &mut steps)
}

impl<'a, B: GraphRead> GraphRead for Overlay<'a, B> {
    ghost meaning = { λ overlay. overlay };

    fn node<L: Ledger>(&self, id: NodeId, steps: &mut Steps<L>) -> Option<NodeRef<'_>> {
        let Some(change) = change_of(self.delta.nodes.as_slice(), &id) else {
            return self.base.node(id, steps);
        };
        steps.tick();
        match change {
            Some(row) => Some(NodeRef::of(row)),
            None => None,
        }
    }

    fn edge<L: Ledger>(&self, id: EdgeId, steps: &mut Steps<L>) -> Option<EdgeRef<'_>> {
        let Some(change) = change_of(self.delta.edges.as_slice(), &id) else {
            return self.base.edge(id, steps);
        };
        steps.tick();
        match change {
            Some(row) => Some(EdgeRef::of(row)),
            None => None,
        }
    }

    fn out_edge<L: Ledger>(&self, id: NodeId, nth: usize, steps: &mut Steps<L>) -> Option<EdgeId> {
        match self.lists.outgoing.get(&id) {
            Some(list) => list.edge_at(&BaseList::new(self.base, Side::Out, id), nth, steps),
            None => self.base.out_edge(id, nth, steps),
        }
    }

    fn in_edge<L: Ledger>(&self, id: NodeId, nth: usize, steps: &mut Steps<L>) -> Option<EdgeId> {
        match self.lists.incoming.get(&id) {
            Some(list) => list.edge_at(&BaseList::new(self.base, Side::In, id), nth, steps),
            None => self.base.in_edge(id, nth, steps),
        }
    }

    fn node_ids<L: Ledger>(
        &self,
        alloc: Global,
        steps: &mut Steps<L>,
    ) -> Result<List<NodeId>, Memory> {
        let before = base_node_ids::<B, Brand>(alloc, self.base, Blank::new(1))?;
        changed_keys(alloc, before.as_slice(), self.delta.nodes.as_slice(), steps)
    }

    fn edge_ids<L: Ledger>(
        &self,
        alloc: Global,
        steps: &mut Steps<L>,
    ) -> Result<List<EdgeId>, Memory> {
        let before = base_edge_ids::<B, Brand>(alloc, self.base, Blank::new(1))?;
        changed_keys(alloc, before.as_slice(), self.delta.edges.as_slice(), steps)
    }

    fn count(&self) -> u64 {
        self.count
    }
}
